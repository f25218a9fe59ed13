//! A world below a header.

ghost use Rattle.std.specs.Prelude.{◌≡◌, ◌++◌, Ok, OnErr, OnOk};
ghost use Rattle.suite_play.specs.code.Playing as playing;
ghost use Rattle.suite_script.specs.Readings.{Gives};
ghost use Rattle.suite_session.specs.Headings.{old_line};
ghost use Rattle.suite_session.specs.Services.{after_own, opened_of, reopened, KeepsAllButWorld};
ghost use Rattle.suite_session.specs.declared.play_service.PlayService.TheVariants as service;

use crate::play_service::PlayService;
use run_core::World;
use script_text::Words;
use std::alloc::{AllocError, Global};
use suite_play::{Command, Places, old_of, places_of};
use suite_prefix::Settings;
use suite_script::{LineError, LineFault, LineStage};

/// A world below a header, and whether it is fresh: then the header may yet name the servers that open with their
/// root in form 1.
#[derive(Drop)]
pub struct OpenService {
    pub is_fresh: bool,
    pub settings: Settings,
    pub places: Places,
    pub world: World,
}

/// The service as it opens with these settings.
pub(crate) fn opened(alloc: Global, settings: Settings) -> Result<PlayService, LineError>
    ensures { Gives result (Ok (service.Open (opened_of settings))) }
{
    let world = World::opening(alloc, &settings)?;
    let places = places_of(&settings);
    Ok(PlayService::Open(OpenService {
        is_fresh: true,
        settings,
        places,
        world,
    }))
}

impl OpenService {
    /// The service as it opens once more, with the servers that the last line of a header names.
    pub(crate) fn reopened(
        &self,
        alloc: Global,
        mut words: Words<'_>,
    ) -> Result<PlayService, LineError>
        ensures { Gives result (reopened self.now words.entry) }
    {
        let settings = with_old(alloc, &self.settings, &mut words)?;
        opened(alloc, settings)
    }

    /// Plays a line, and adds what it prints to the text.
    pub(crate) fn play(
        &mut self,
        alloc: Global,
        command: &Command,
        text: &mut Vec<u8>,
    ) -> Result<(), AllocError>
        ensures printed { OnOk result (text.new.items ≡ text.old.items ++ playing.line_of self.old.world 0 command.now) }
        ensures after { OnOk result (self.new ≡ after_own self.old command.now) }
        ensures stopped { OnErr result (KeepsAllButWorld self.old self.new) }
    {
        self.is_fresh = false;
        <World as LineStage<Places>>::play_line(&mut self.world, alloc, 0, command, text)
    }
}

/// Settings, with the servers that the last line of a header names.
fn with_old(
    alloc: Global,
    settings: &Settings,
    words: &mut Words<'_>,
) -> Result<Settings, LineError>
    ensures { Gives result (old_line settings.now words.old) }
{
    let old = old_of(
        words,
        settings.servers(),
        settings.root_acl(),
        settings.c0(),
    )?;
    let acl = settings.root_acl().clone()?;
    let made = Settings::new(
        settings.servers(),
        settings.agents(),
        *settings.c0(),
        settings.root_owner(),
        settings.root_group(),
        acl,
        settings.budget(),
        settings.quota(),
        settings.slots(),
        old,
    );
    match made {
        Ok(made) => Ok(made),
        Err(fault) => Err(LineError::Faulty(LineFault::Settings(fault))),
    }
}
