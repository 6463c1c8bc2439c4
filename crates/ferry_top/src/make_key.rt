//! The command that makes a key.
ghost use Rattle.std.specs.Prelude.{◌≤◌};
ghost use Rattle.ferry_disk.specs.Device.{RoseWhere};
ghost use Rattle.ferry_status.specs.Devices.{written};
ghost use Rattle.ferry_top.specs.MakeKey.{IsDrawnKey, PrintsKey};
ghost use Rattle.ferry_status.specs.Status.{entropy_failed};

use ferry_disk::{Entropy, Sink};
use ferry_repo::Secret;
use ferry_status::{Status, of_output, of_store};
use ferry_view::send;
use std::alloc::Global;

/// Makes a key, sealed with the secret's passphrase, and prints the text of its key file.
#[tactic(auto, using(ferry_status::proofs::StatusLemmas::causes))]
pub(crate) fn make_key<E: Entropy, K: Sink>(
    alloc: Global,
    secret: &Secret,
    iterations: u32,
    entropy: &mut E,
    out: &mut K,
) -> Status
    requires iterations { (1 ≤ iterations) × (iterations ≤ 10000000) }
    ensures prints { PrintsKey (IsDrawnKey secret.now.passphrase iterations (E.drawn entropy.old) (E.drawn entropy.new))
        (written (K.written out.old) (K.faults out.old)) result (written (K.written out.new) (K.faults out.new)) }
    ensures entropy { RoseWhere (entropy_failed result) (E.faults entropy.old) (E.faults entropy.new) }
{
    let made = ferry_store::make_key(alloc, entropy, secret.passphrase.as_slice(), iterations);
    let text = match made {
        Ok(text) => text,
        Err(refusal) => return of_store(refusal),
    };
    match send(&text, out) {
        Ok(()) => Status::Done,
        Err(fault) => of_output(fault),
    }
}
