//! A law on what texts mean.

ghost use Rattle.std.specs.Prelude.{◌≡◌, ◌≢◌, ◌≤◌, ◌↔◌, ℕ, List, Ok, Err, Some};
ghost use Rattle.std.specs.Fmt.{decimal};
ghost use Rattle.ferry_config.specs.Config.{SaysConfig, config_of, first_fault};
ghost use Rattle.ferry_config.specs.Value.{greatest, number_of};
ghost use Rattle.ferry_config.specs.declared.config.Config.{Config};
ghost use Rattle.ferry_config.specs.declared.fault.ConfigFault.{ConfigFault};

/// A law with nothing to run: each text has one meaning, a config or a fault.
///
/// `config_of` is a function, so the answers of `read_config` exclude each other, and one of them
/// always holds. The clauses say what each of them is apart from the order of tests.
pub fn one_meaning()
    // A text means a config exactly where it says so: `SaysConfig` has each condition by itself.
    ensures config { (text : List ℕ) (config : Config)
        → (config_of text ≡ Ok config) ↔ SaysConfig text config }

    // It means a fault exactly where that is the first one.
    ensures fault { (text : List ℕ) (fault : ConfigFault)
        → (config_of text ≡ Err fault) ↔ (first_fault text ≡ Some fault) }

    // No text means that memory ran out.
    ensures memory { (text : List ℕ) → config_of text ≢ Err ConfigFault.Memory }

    // A number is read exactly from the text that is printed for it.
    ensures number { (text : List ℕ) (number : ℕ)
        → (number_of text ≡ Some number)
        ↔ ((text ≡ decimal number) × (1 ≤ number) × (number ≤ greatest)) }
{}
