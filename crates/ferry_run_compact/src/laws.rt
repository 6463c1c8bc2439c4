//! A law of the command that compacts a repository, the contract of a function with nothing to do.
ghost use Rattle.std.specs.Prelude.{◌≡◌, Ok};
ghost use Rattle.ferry_config.specs.Config.{config_of};
ghost use Rattle.ferry_config.specs.declared.config.Config.{Config};
ghost use Rattle.ferry_disk.specs.Files.{Files, contents_at};
ghost use Rattle.ferry_disk.specs.declared.name.Name.TheVariants.{Config as ConfigFile};
ghost use Rattle.ferry_log.specs.State.{IsStateOf, LogState};
ghost use Rattle.ferry_run_compact.specs.Compact.{IsCompactedUnless, RefusesCompacting};
ghost use Rattle.ferry_status.specs.declared.status.Status.{Status as TheStatus};

/// Where the log and the settings of a target read, compaction is refused by nothing but want of memory, a device that failed, and the numbers of segments,
/// where they are used up.
pub fn compact_laws()
    ensures complete { (start image : Files) (state : LogState) (config : Config) (status : TheStatus) → IsStateOf start state
        → config_of (contents_at start ConfigFile) ≡ Ok config → RefusesCompacting start image status → IsCompactedUnless image status }
{}
