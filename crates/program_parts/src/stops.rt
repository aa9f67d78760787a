//! Why a program stops without doing what its words ask for, and how it tells so.

ghost use Rattle.std.specs.Prelude.{◌≡◌, ◌≤◌, ◌⊎◌, ℕ, List, length, Err, IfErr, OnOk};
ghost use Rattle.std.specs.Io.KnownBytes.{Appends};
ghost use Rattle.plane.specs.Device.{HasFailed};
ghost use Rattle.plane.specs.Fault.{placeless};
ghost use Rattle.plane.specs.SinkChange.{change_of};
ghost use Rattle.program_parts.specs.Faults.{IsHelp, IsStopOf};
ghost use Rattle.program_parts.specs.Messages.{HasTold, status_of};
ghost use Rattle.program_parts.specs.declared.stops.Stop.TheVariants.{Refused};

use crate::messages::{refused_status, tell_bad_words, tell_fault};
use crate::reason::WordsReason;
use clap::error::ErrorKind;
use plane::{Fault, Refusal, Sink, write_all};
use std::alloc::Global;

/// Why a program stops without doing what its arguments ask for.
#[derive(Drop)]
pub enum Stop {
    /// They ask for nothing.
    BadWords(WordsReason),
    /// What they ask for was refused.
    Refused(Fault),
}

impl From<Fault> for Stop {
    ghost from_gives = { λ fault stop. stop ≡ Refused fault };

    fn from(fault: Fault) -> Stop {
        Stop::Refused(fault)
    }
}

/// Tells on one line why a program stopped, if it did, and answers its exit status: 0 if it did
/// not, 2 for bad words, else 3 where a device failed and 1 where not. A failure of the messages
/// changes nothing else. The program's name has at most 32 bytes.
pub(crate) fn tell_end<E: Sink>(
    alloc: Global,
    messages: &mut E,
    program: &str,
    ended: Result<(), Stop>,
) -> u8
    requires { length program.now ≤ 32 }
    ensures status { result ≡ status_of ended }
    ensures well { OnOk ended (messages.new ≡ messages.old) }
    ensures told { IfErr ended (λ stop. HasTold program.now stop
        (change_of E.taken E.failure_count messages.old messages.new)) }
{
    match ended {
        Ok(()) => 0,
        Err(Stop::BadWords(reason)) => {
            let _ = tell_bad_words(alloc, messages, program, &reason);
            2
        }
        Err(Stop::Refused(fault)) => {
            let _ = tell_fault(messages, program, fault);
            refused_status(fault.refusal)
        }
    }
}

/// Ends a program whose words ask for no run: shows the help where they ask for it, and stops else.
pub(crate) fn end_of_words<O: Sink>(
    alloc: Global,
    reason: WordsReason,
    out: &mut O,
) -> Result<(), Stop>
    ensures shown { OnOk result (IsHelp reason
        × ((text : List ℕ) × Appends (O.taken out.old) (O.taken out.new) text)) }
    ensures unfailed { (result ≡ Err (Refused (placeless Refusal.WriteFailed)))
        ⊎ (O.failure_count out.new ≡ O.failure_count out.old) }
    ensures stopped { IfErr result
        (IsStopOf reason (change_of O.taken O.failure_count out.old out.new)) }
{
    match reason {
        WordsReason::Refused(refusal) => Err(Stop::Refused(Fault::from(refusal))),
        WordsReason::Clap(error) if error.kind() == ErrorKind::DisplayHelp => {
            Ok(show_help(alloc, &error, out)?)
        }
        reason => Err(Stop::BadWords(reason)),
    }
}

fn show_help<O: Sink>(alloc: Global, help: &clap::Error, out: &mut O) -> Result<(), Fault>
    ensures shown { OnOk result
        ((text : List ℕ) × Appends (O.taken out.old) (O.taken out.new) text) }
    ensures unfailed { OnOk result (O.failure_count out.new ≡ O.failure_count out.old) }
    ensures refused { IfErr result (λ fault.
        ((fault ≡ placeless Refusal.NoMemory) × (out.new ≡ out.old))
        ⊎ ((fault ≡ placeless Refusal.WriteFailed)
        × HasFailed (O.failure_count out.old) (O.failure_count out.new))) }
{
    let Ok(text) = help.to_string(alloc) else {
        return Err(Fault::from(Refusal::NoMemory));
    };
    write_all(out, text.as_bytes())?;
    Ok(())
}
