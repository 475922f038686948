//! What answers the lines of a script.
ghost use Rattle.std.specs.Prelude.{◌≡◌, ◌≤◌, IfOk};
ghost use Rattle.sm_script.specs.Scenes.{first_scene};
ghost use Rattle.sm_script.specs.Sessions.{IsAt};

use crate::session::Session;
use report_io::{ReportFault, TakesLines, fault_of};
use sm_names::{Limits, MAX_PAGES, NoMemory};
use std::alloc::Global;

// A session, and the text of the current line.
#[derive(Drop)]
pub(crate) struct Player {
    session: Session,
    reply: Vec<u8>,
}

impl Player {
    // A player that has answered no line.
    pub(crate) fn new(
        alloc: Global,
        seed: [u8; 16],
        pages: u32,
        limits: Limits,
    ) -> Result<Player, NoMemory>
        requires { (1 ≤ pages) × (pages ≤ MAX_PAGES) }
        ensures pool { IfOk result (λ player. player.session.core.pool ≡ pages) }
        ensures limits { IfOk result (λ player. player.session.core.limits ≡ limits) }
        ensures start { IfOk result (λ player. IsAt player.session first_scene) }
    {
        let session = Session::new(alloc, seed, pages, limits)?;
        Ok(Player {
            session,
            reply: Vec::new(alloc),
        })
    }
}

impl TakesLines for Player {
    ghost use Rattle.sm_script.specs.Players.{Refuses, Took};

    ghost took = { Took };

    ghost refuses = { Refuses };

    fn take_line(
        &mut self,
        alloc: Global,
        number: u64,
        line: &[u8],
        text: &mut Vec<u8>,
    ) -> Result<bool, ReportFault> {
        match self.session.answer(line, &mut self.reply) {
            Ok(()) => {}
            Err(stop) => return Err(fault_of(alloc, stop, &self.session.tables, number, line)),
        }
        match text.extend_from_slice(&self.reply) {
            Ok(()) => Ok(true),
            Err(_) => Err(ReportFault::NoMemory),
        }
    }
}
