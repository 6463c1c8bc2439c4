//! Laws on what key texts mean.

ghost use Rattle.std.specs.Prelude.{◌≡◌, ◌≢◌, ◌⊎◌, ◌↔◌, ℕ, List, Bool, false, Ok, Err, Some};
ghost use Rattle.ferry_msgpack.specs.Tree.{Pairs, table};
ghost use Rattle.ferry_msgpack.specs.Spelling.{Spells};
ghost use Rattle.ferry_fields.specs.Fields.{map_of};
ghost use Rattle.ferry_keyblob.specs.Envelope.{envelope_of};
ghost use Rattle.ferry_keyblob.specs.Meaning.{HasNoEnvelope, HasNoKey, HasNoMap, HasOtherAlgorithm, HasOtherIterations, IsEnvelope, IsNoMap, OpensTo};
ghost use Rattle.ferry_keyblob.specs.Opening.{Opened, has_hash, key_of};
ghost use Rattle.ferry_keyblob.specs.declared.envelope.Envelope.{Envelope};
ghost use Rattle.ferry_keyblob.specs.declared.fault.KeyFault.{KeyFault};

/// Laws with nothing to run: each key text has one meaning under a passphrase, a key or a fault.
///
/// `envelope_of` and `key_of` are functions, so the answers of the calls exclude each other, and one
/// of them always holds.
pub fn key_laws()
    // Bytes have the pairs of a map exactly where they spell it, with nothing behind it.
    ensures map { (bytes : List ℕ) (pairs : Pairs)
        → (map_of bytes ≡ Some pairs) ↔ Spells (table pairs) bytes }

    // A passphrase is wrong exactly where the envelope reads and the hash is another one.
    ensures passphrase { (passphrase blob : List ℕ)
        → (key_of passphrase blob ≡ Err KeyFault.Passphrase)
        ↔ ((envelope : Envelope) × (envelope_of blob ≡ Ok envelope)
        × (has_hash passphrase envelope ≡ false)) }

    // A key text opens to a key exactly where its envelope, the hash and the fields inside say so.
    ensures key { (passphrase blob : List ℕ) (key : Opened)
        → (key_of passphrase blob ≡ Ok key) ↔ OpensTo passphrase blob key }
    ensures opens { (blob : List ℕ) (envelope : Envelope)
        → (envelope_of blob ≡ Ok envelope) ↔ IsEnvelope blob envelope }
    // The text, or the key inside, spells no map, or lacks a field.
    ensures pack { (passphrase blob : List ℕ) → (key_of passphrase blob ≡ Err KeyFault.Pack)
        ↔ (IsNoMap blob ⊎ HasNoMap passphrase blob) }
    ensures field { (passphrase blob : List ℕ) → (key_of passphrase blob ≡ Err KeyFault.Field)
        ↔ (HasNoEnvelope blob ⊎ HasNoKey passphrase blob) }
    // The algorithm is another one; it isn't, and the iterations are out of their range.
    ensures algorithm { (passphrase blob : List ℕ) → (key_of passphrase blob ≡ Err KeyFault.Algorithm)
        ↔ HasOtherAlgorithm blob }
    ensures iterations { (passphrase blob : List ℕ) → (key_of passphrase blob ≡ Err KeyFault.Iterations)
        ↔ HasOtherIterations blob }

    // No envelope means a wrong passphrase, and no bytes mean that memory ran out.
    ensures envelope { (blob : List ℕ) → envelope_of blob ≢ Err KeyFault.Passphrase }
    ensures memory { (passphrase blob : List ℕ) → key_of passphrase blob ≢ Err KeyFault.Memory }
{}
