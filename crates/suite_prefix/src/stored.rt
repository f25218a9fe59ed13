//! Copies kept as their bytes.

ghost use Rattle.std.specs.Prelude.{◌≡◌, IfOk};
ghost use Rattle.std.specs.Arc.{arc_value};
ghost use Rattle.suite_prefix.specs.Bytes.{bytes_in, content_bytes};
ghost use Rattle.suite_prefix.specs.Copies.{IsCopy};
ghost use Rattle.suite_prefix.specs.Forms.{CanHold};
ghost use Rattle.suite_prefix.specs.Stored.{under};
ghost use Rattle.suite_prefix.specs.code.Heads.{head_of};
ghost use Rattle.suite_prefix.specs.code.Records.{IsReadOf, IsRecord, kept_in};
ghost use Rattle.suite_prefix.specs.declared.forms.Form.TheVariants.{Two};

use crate::copies::{Prefix, PrefixKind, Replica};
use crate::decoding::{content_from, decode};
use crate::forms::Form;
use crate::heads::HeadParts;
use crate::reading::{content_at, form_at};
use crate::shared::SharedPrefix;
use crate::writing::{encode_in, put_prefix, room_for_prefix};
use std::alloc::{AllocError, Global};
use std::marker::Model;
use std::sync::Arc;
use suite_content::Content;

/// A valid copy, kept as its bytes, in a form that can hold it. A clone shares them. What was written or read of them is
/// kept beside them, to be shared when it is asked for, and does not show.
#[derive(Drop)]
pub struct StoredCopy {
    bytes: Arc<Vec<u8>, Global>,
    read: Option<Box<Read>>,
}

/// What was read of the bytes of a copy: all that stands before the content, and the content where it was
/// asked for.
#[derive(Drop)]
struct Read {
    prefix: SharedPrefix,
    dver: u64,
    content: Option<Content>,
}

impl Model for StoredCopy {
    ghost use Rattle.std.specs.Prelude.{IfSome};
    ghost use Rattle.std.specs.Arc.{arc_value};
    ghost use Rattle.suite_prefix.specs.Stored.{Kept};
    ghost use Rattle.suite_prefix.specs.code.Records.{IsReadOf, IsRecord, kept_in};

    ghost Value = { Kept };

    ghost view = { λ stored. kept_in (arc_value stored.bytes).items };

    ghost invariant = { λ stored. IsRecord (arc_value stored.bytes).items
        × IfSome stored.read (λ read. IsReadOf (kept_in (arc_value stored.bytes).items).copy read.value) };
}

impl Clone for StoredCopy {
    ghost use Rattle.std.specs.Prelude.{◌≡◌};

    ghost is_clone = { λ stored copy. copy ≡ stored };

    fn clone(&self) -> Result<StoredCopy, AllocError> {
        let bytes = self.bytes.clone()?;
        Ok(kept(bytes))
    }
}

impl StoredCopy {
    /// A valid copy, in the form that is written.
    pub fn new(alloc: Global, copy: &Replica) -> Result<StoredCopy, AllocError>
        requires { IsCopy copy.now }
        ensures { IfOk result (λ stored. stored ≡ record { form = Two; copy = copy.now }) }
    {
        StoredCopy::in_form(alloc, Form::Two, copy)
    }

    /// A valid copy in a form that can hold it: what was there before form 2 is in form 1.
    pub fn in_form(alloc: Global, form: Form, copy: &Replica) -> Result<StoredCopy, AllocError>
        requires valid { IsCopy copy.now }
        requires held { CanHold form copy.now.prefix }
        ensures { IfOk result (λ stored. stored ≡ record { form = form; copy = copy.now }) }
    {
        let bytes = encode_in(alloc, form, copy)?;
        let read = read_of(alloc, copy)?;
        let shared = Arc::new(alloc, bytes)?;
        Ok(kept_beside(shared, read))
    }

    /// The copy under another prefix, in the form that is written. The bytes of its content are taken as they
    /// stand.
    pub fn under(&self, alloc: Global, prefix: &Prefix) -> Result<StoredCopy, AllocError>
        requires { IsCopy (under prefix.now self.now.copy) }
        ensures { IfOk result (λ stored. stored ≡ record { form = Two; copy = under prefix.now self.now.copy }) }
    {
        let mut reps = [(0, 0); 255];
        let (head, content) = self.parts(&mut reps);
        if head.identity.kind.is_absent() {
            let prefix = prefix.clone()?;
            let content = Content::empty(alloc, prefix.kind.held());
            let copy = Replica {
                prefix,
                dver: head.dver,
                content,
            };
            return StoredCopy::new(alloc, &copy);
        }
        let room = room_for_prefix(prefix).saturating_add(content.len());
        let mut left = Vec::with_capacity(alloc, room)?;
        left.push(Form::Two.code())?;
        put_prefix(&mut left, Form::Two, prefix)?;
        left.extend_from_slice(&head.dver.to_be_bytes())?;
        left.extend_from_slice(content)?;
        let shared = Arc::new(alloc, left)?;
        Ok(kept(shared))
    }

    /// The form of the bytes.
    pub fn form(&self) -> Form
        ensures { result ≡ self.now.form }
    {
        let (form, _) = form_at(self.as_bytes()).unwrap();
        form
    }

    /// The kind.
    pub fn kind(&self) -> PrefixKind
        ensures { result ≡ self.now.copy.prefix.kind }
    {
        if let Some(read) = &self.read {
            return read.prefix.kind;
        }
        let mut reps = [(0, 0); 255];
        let (head, _) = self.parts(&mut reps);
        head.identity.kind
    }

    /// The prefix, and the version of the content.
    pub fn head(&self, alloc: Global) -> Result<(SharedPrefix, u64), AllocError>
        ensures prefix { IfOk result (λ head. head.0 ≡ self.now.copy.prefix) }
        ensures dver { IfOk result (λ head. head.1 ≡ self.now.copy.dver) }
    {
        match &self.read {
            Some(read) => {
                let prefix = read.prefix.clone()?;
                Ok((prefix, read.dver))
            }
            None => self.read_head(alloc),
        }
    }

    /// The version of the content, and the content.
    pub fn given(&self, alloc: Global) -> Result<(u64, Content), AllocError>
        ensures dver { IfOk result (λ given. given.0 ≡ self.now.copy.dver) }
        ensures content { IfOk result (λ given. given.1 ≡ self.now.copy.content) }
    {
        if let Some(read) = &self.read {
            if let Some(content) = &read.content {
                let content = content.clone()?;
                return Ok((read.dver, content));
            }
        }
        self.read_content(alloc)
    }

    /// Reads the prefix and the version of the content, where nobody did, and keeps them. The copy is the same.
    pub fn keep_head(&mut self, alloc: Global) -> Result<(), AllocError>
        ensures { self.new ≡ self.old }
    {
        if self.keeps_head() {
            return Ok(());
        }
        let (prefix, dver) = self.read_head(alloc)?;
        let read = Read {
            prefix,
            dver,
            content: None,
        };
        let read = Box::new(alloc, read)?;
        self.read = Some(read);
        Ok(())
    }

    /// Reads all of it, where nobody did, and keeps it. The copy is the same.
    pub fn keep_content(&mut self, alloc: Global) -> Result<(), AllocError>
        ensures { self.new ≡ self.old }
    {
        if self.keeps_content() {
            return Ok(());
        }
        let (prefix, dver) = self.head(alloc)?;
        let (_, content) = self.read_content(alloc)?;
        let read = Read {
            prefix,
            dver,
            content: Some(content),
        };
        let read = Box::new(alloc, read)?;
        self.read = Some(read);
        Ok(())
    }

    /// Whether the prefix is kept beside the bytes.
    pub fn keeps_head(&self) -> bool {
        self.read.is_some()
    }

    /// Whether the content is kept beside the bytes.
    pub fn keeps_content(&self) -> bool {
        match &self.read {
            Some(read) => read.content.is_some(),
            None => false,
        }
    }

    /// The bytes. It takes no memory.
    pub fn as_bytes(&self) -> &[u8]
        ensures bytes { result.now ≡ bytes_in self.now.form self.now.copy }
        ensures valid { IsCopy self.now.copy }
        ensures held { CanHold self.now.form self.now.copy.prefix }
    {
        self.bytes.as_slice()
    }

    /// The copy. Only memory keeps it from being read.
    pub fn copy(&self, alloc: Global) -> Result<Replica, AllocError>
        ensures { IfOk result (λ copy. copy ≡ self.now.copy) }
    {
        match decode(alloc, self.as_bytes()) {
            Ok(copy) => Ok(copy),
            Err(_) => Err(AllocError),
        }
    }

    /// What stands before the content, and the bytes of the content.
    fn parts<'a>(&'a self, reps: &'a mut [(u8, u8); 255]) -> (HeadParts<'a>, &'a [u8])
        ensures head { result.0 ≡ head_of self.now.copy }
        ensures content { result.1.now ≡ content_bytes self.now.copy.content }
        ensures valid { IsCopy self.now.copy }
    {
        HeadParts::at(self.as_bytes(), reps).unwrap()
    }

    fn read_head(&self, alloc: Global) -> Result<(SharedPrefix, u64), AllocError>
        ensures prefix { IfOk result (λ head. head.0 ≡ self.now.copy.prefix) }
        ensures dver { IfOk result (λ head. head.1 ≡ self.now.copy.dver) }
    {
        let mut reps = [(0, 0); 255];
        let (head, _) = self.parts(&mut reps);
        let prefix = head.prefix(alloc)?;
        let shared = SharedPrefix::new(alloc, prefix)?;
        Ok((shared, head.dver))
    }

    fn read_content(&self, alloc: Global) -> Result<(u64, Content), AllocError>
        ensures dver { IfOk result (λ given. given.0 ≡ self.now.copy.dver) }
        ensures content { IfOk result (λ given. given.1 ≡ self.now.copy.content) }
    {
        let mut reps = [(0, 0); 255];
        let (head, rest) = self.parts(&mut reps);
        let (shape, _) = content_at(head.identity.kind, rest).unwrap();
        let content = content_from(alloc, &shape)?;
        Ok((head.dver, content))
    }
}

/// The copy with these bytes.
fn kept(bytes: Arc<Vec<u8>, Global>) -> StoredCopy
    requires { IsRecord (arc_value bytes).items }
    ensures { result ≡ kept_in (arc_value bytes).items }
{
    StoredCopy { bytes, read: None }
}

/// The copy with these bytes, and beside them what would be read of them.
fn kept_beside(bytes: Arc<Vec<u8>, Global>, read: Box<Read>) -> StoredCopy
    requires record { IsRecord (arc_value bytes).items }
    requires read { IsReadOf (kept_in (arc_value bytes).items).copy read.value }
    ensures { result ≡ kept_in (arc_value bytes).items }
{
    StoredCopy {
        bytes,
        read: Some(read),
    }
}

/// What would be read of the bytes of a copy. It shares the lists and the content.
fn read_of(alloc: Global, copy: &Replica) -> Result<Box<Read>, AllocError>
    ensures { IfOk result (λ read. IsReadOf copy.now read.value) }
{
    let prefix = copy.prefix.clone()?;
    let prefix = SharedPrefix::new(alloc, prefix)?;
    let content = copy.content.clone()?;
    let read = Read {
        prefix,
        dver: copy.dver,
        content: Some(content),
    };
    let read = Box::new(alloc, read)?;
    Ok(read)
}
