//! The session over its disk, as the machine of a script.
ghost use Rattle.std.specs.Prelude.{⊤};
ghost use Rattle.dg_machine.specs.Script.{Asked};
ghost use Rattle.dg_session.specs.Session.{HoldsImage};
ghost use Rattle.dg_run.specs.Calls.{AnswersEntry, BreaksEntry, StaysSo, stays_as_it_is};

use dg_disk::Disk;
use dg_machine::{Command, Reply};
use dg_session::Session;
use dg_turns::{Lines, Machine, Names, Source, Stop};
use std::thread::Threads;

/// A session, which carries out the commands of a script over the disk that holds its index file.
#[derive(Drop)]
pub struct SessionMachine {
    pub session: Session,
}

impl<D: Disk> Machine<D> for SessionMachine {
    ghost holds = { λ machine disk. HoldsImage machine.session.parts (D.image disk) };

    ghost takes = { λ command. ⊤ };

    ghost texts = { λ machine. machine.session.parts.names };

    ghost answers = { λ command got machine disk then_machine then_disk reply.
        AnswersEntry D.Disk (Asked command got) machine.session.parts disk then_machine.session.parts then_disk reply };

    ghost breaks = { λ command got machine disk then_machine then_disk.
        BreaksEntry D.Disk (Asked command got) machine.session.parts disk then_disk };

    ghost stays = { λ machine disk then_machine then_disk.
        StaysSo D.Disk machine.session.parts disk then_machine.session.parts then_disk };

    fn names(&self) -> &Names {
        self.session.names()
    }

    fn carry<R: Threads + Sync, S: Source>(
        &mut self,
        rt: &R,
        command: &Command,
        lines: &mut Lines,
        source: &mut S,
        disk: &mut D,
    ) -> Result<Reply, Stop> {
        match self.session.step(rt, command, lines, source, disk) {
            Ok(reply) => Ok(reply),
            Err(dg_session::Stop::Read) => Err(Stop::Read),
            Err(dg_session::Stop::Limit) => Err(Stop::Limit),
            Err(dg_session::Stop::Store) => Err(Stop::World),
        }
    }

    ghost stays_so = { λ machine disk. stays_as_it_is machine.session.parts disk };
}
