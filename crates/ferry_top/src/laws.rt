//! Laws of all commands, each the contract of a function with nothing to do.
ghost use Rattle.std.specs.Prelude.{◌≡◌, List, [], IfSome, Ok};
ghost use Rattle.std.specs.List.{AllByRecursion};
ghost use Rattle.ferry_disk.specs.Act.{History, files_now};
ghost use Rattle.ferry_disk.specs.Moments.{Moments};
ghost use Rattle.ferry_repo.specs.declared.secret.Secret.{Secret as TheSecret};
ghost use Rattle.ferry_carry.specs.States.{drawn_from};
ghost use Rattle.ferry_status.specs.Devices.{Devices};
ghost use Rattle.ferry_status.specs.declared.status.Secrets.{Secrets as TheSecrets};
ghost use Rattle.ferry_status.specs.declared.status.Status.{Status as TheStatus};
ghost use Rattle.ferry_top.specs.Following.{AreLeft, MayBegin};
ghost use Rattle.ferry_top.specs.Ready.{IsDoneOr, IsReadyTo, Meets};
ghost use Rattle.ferry_top.specs.Run.{Runs};
ghost use Rattle.ferry_stops.specs.Chance.{IsLeft};
ghost use Rattle.ferry_words.specs.declared.command.Command.{Command as TheCommand};
ghost use Rattle.ferry_write.specs.Session.{SettlesFirst};

/// Where what a command asks is there, its run is done, unless memory was refused, a device failed, or one of its limits was met.
pub fn complete_laws()
    ensures complete { (command : TheCommand) (secrets : TheSecrets) (before after : Devices) (status : TheStatus)
        → IfSome before.target.told (λ t. t.history.acts ≡ [])
        → IsReadyTo command secrets (drawn_from before.entropy.bytes after.entropy.bytes) before.source.told before.target.told after.target.told
        → Runs (Ok command) secrets before status after
        → IsDoneOr (Meets command secrets before.source.told before.target.told after.target.told) status }
{}

/// What a read gives at a moment of a run is among what a stop leaves then, also where the last act isn't done: so what holds of all that a stop leaves
/// holds of something.
pub fn stop_laws()
    ensures now { (before now : History) → before.acts ≡ [] → SettlesFirst before now → Moments (λ _. Unit {0}) before now → IsLeft now (files_now now) }
{}

/// What a run of a command that writes leaves, where it ended and where it was stopped, is what a run may begin with: so it is behind any number of runs
/// and stops of `init`, `transfer`, `delete`, `tag-archives` and `compact`, in any order.
pub fn following_laws()
    ensures goes_on { (secret : TheSecret) (before : History) (histories : List History) → AreLeft secret before histories → MayBegin secret before
        → AllByRecursion (MayBegin secret) histories }
{}
