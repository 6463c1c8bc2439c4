//! Laws on what a text means.

ghost use Rattle.std.specs.Prelude.{◌≡◌, ◌≢◌, ◌↔◌, ℕ, List, Ok, Err, None};
ghost use Rattle.ferry_keyfile.specs.KeyFile.{HasParts, SaysKeyFile, key_file_of, key_in};
ghost use Rattle.ferry_keyfile.specs.declared.fault.KeyFileFault.TheVariants as KeyFileFault;
ghost use Rattle.ferry_keyfile.specs.declared.file.KeyFile.{KeyFile};

/// Laws with nothing to run: what a text means, by the parts that it has.
///
/// `key_file_of` is a function, so the answers of `read_key_file` exclude each other, and one of them always holds.
pub fn key_file_laws()
    ensures file { (bytes : List ℕ) (file : KeyFile) → (key_file_of bytes ≡ Ok file) ↔ SaysKeyFile bytes file }

    // A first line with an id, and a body that says nothing.
    ensures body { (bytes : List ℕ)
        → (key_file_of bytes ≡ Err KeyFileFault.Body) ↔ ((id : List ℕ) × (body : List ℕ) × HasParts bytes id body × (key_in body ≡ None)) }

    // No first line with an id.
    ensures header { (bytes : List ℕ)
        → (key_file_of bytes ≡ Err KeyFileFault.Header) ↔ ((id body : List ℕ) → HasParts bytes id body → ⊥) }
{}
