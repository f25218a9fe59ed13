//! The table.

ghost use Rattle.std.specs.Prelude.{◌≡◌, ◌<◌, ◌^◌, [], ◌∷◌, Err, IfOk, IsTrue};

use crate::act::Transaction;
use crate::answer::{Answers, Replies};
use crate::audit::AuditItem;
use crate::copies::{copied_rows, same_rows};
use crate::operation::{MAX_OPERATIONS, Op};
use crate::path::PathText;
use crate::play::play;
use crate::refusal::{ApplyError, Refusal, Why};
use crate::service::Service;
use crate::stored::{StoredContent, StoredRow, StoredRows};
use crate::walk::{ROOT, permit, reach};
use acl_core::{Caller, Perms};
use sorted_map::SortedMap;
use std::alloc::{AllocError, Global};
use std::marker::Model;
use suite_content::Kind;
use suite_prefix::Settings;

/// A table of files and folders, and the denials that it has answered.
#[derive(Drop)]
pub struct Table {
    alloc: Global,
    service: Service,
    rows: StoredRows,
    audit: Vec<AuditItem>,
}

impl Model for Table {
    ghost use Rattle.file_ops.specs.Rows.{PlainTable};

    ghost Value = { PlainTable };

    ghost use Rattle.file_ops.specs.code.Stored.{plain};

    ghost view = { λ table. record { service = table.service; rows = plain table.rows; audit = table.audit.items } };
}

impl Table {
    ghost use Rattle.file_ops.specs.Transactions.{IsUnlessMemory, RefusesFirst, transaction, replies, table_after, left_by};
    ghost use Rattle.file_ops.specs.Rows.{opening};
    ghost use Rattle.file_ops.specs.Granting.{tested};

    /// The table that settings open: the root folder alone, without names.
    pub fn opening(alloc: Global, settings: &Settings) -> Result<Table, AllocError>
        ensures { IfOk result (λ table. table ≡ opening settings.now) }
    {
        let acl = settings.root_acl().clone()?;
        let root = StoredRow {
            owner: settings.root_owner(),
            group: settings.root_group(),
            acl,
            votes: *settings.c0(),
            content: StoredContent::empty(alloc, Kind::Folder),
        };
        let mut rows = SortedMap::new(alloc);
        rows.insert(ROOT, root)?;
        Ok(Table {
            alloc,
            service: Service {
                servers: settings.servers(),
                c0: *settings.c0(),
            },
            rows,
            audit: Vec::new(alloc),
        })
    }

    /// Plays the transaction `t`. A refusal leaves the files and folders as they were, and a denial is
    /// kept for the audit. Where memory runs out the table is as it was.
    pub fn apply(&mut self, t: u64, caller: &Caller, ops: &[Op]) -> Result<Answers, ApplyError>
        requires { t < 2 ^ 60 }
        ensures answer { IsUnlessMemory result (replies (transaction self.old.service self.old.rows t caller.now ops.now)) }
        ensures first { RefusesFirst result (transaction self.old.service self.old.rows t caller.now ops.now) }
        ensures after { self.new ≡ left_by result self.old
            (table_after self.old t caller.now (transaction self.old.service self.old.rows t caller.now ops.now)) }
    {
        if ops.is_empty() || ops.len() > MAX_OPERATIONS {
            return Err(ApplyError::Refused(Refusal {
                op: 0,
                why: Why::OpCount,
            }));
        }
        let transaction = Transaction {
            alloc: self.alloc,
            service: &self.service,
            t,
            caller,
        };
        let mut answers = Replies::new(self.alloc);
        match play(&mut self.rows, transaction, 0, ops, &mut answers) {
            Ok(answers) => Ok(answers),
            Err(ApplyError::Refused(refusal)) => Err(self.refuse(t, caller, refusal)),
            Err(ApplyError::Memory) => Err(ApplyError::Memory),
        }
    }

    /// Keeps a denial, and answers a refusal.
    fn refuse(&mut self, t: u64, caller: &Caller, refusal: Refusal) -> ApplyError
        ensures answer { IsUnlessMemory (Err result) (Err refusal) }
        ensures first { RefusesFirst (Err result) (Err refusal) }
        ensures after { self.new ≡ left_by (Err result) self.old (table_after self.old t caller.now (Err refusal)) }
    {
        if let Why::Denied(denial) = refusal.why {
            let item = AuditItem {
                t,
                uid: caller.uid(),
                op: refusal.op,
                denial,
            };
            if self.audit.push(item).is_err() {
                return ApplyError::Memory;
            }
        }
        ApplyError::Refused(refusal)
    }

    /// Whether a caller is granted what it wants of the file or folder at a path, as `access` asks. It is no
    /// operation: no denial is kept for the audit.
    pub fn test(&self, caller: &Caller, path: &PathText, wanted: Perms) -> Result<(), Why>
        ensures { result ≡ tested self.now.rows caller.now path.now wanted }
    {
        let names = path.names().ok_or(Why::BadPath)?;
        let place = reach(&self.rows, caller, names)?;
        permit(caller, place, wanted)
    }

    /// An equal table, without denials.
    pub fn copied(&self) -> Result<Table, AllocError>
        ensures { IfOk result (λ table. table ≡ record self.now { audit = [] }) }
    {
        let rows = copied_rows(self.alloc, &self.rows)?;
        Ok(Table {
            alloc: self.alloc,
            service: self.service,
            rows,
            audit: Vec::new(self.alloc),
        })
    }

    /// Whether the files and folders are the same. What is claimed is that they are, where it says so; not that it says
    /// so wherever they are.
    pub fn same_rows(&self, other: &Table) -> bool
        ensures { IsTrue result → self.now.rows ≡ other.now.rows }
    {
        same_rows(&self.rows, &other.rows)
    }

    /// The denials so far, in the order in which they were answered.
    pub fn audit(&self) -> &[AuditItem]
        ensures { result.now ≡ self.now.audit }
    {
        &self.audit
    }
}
