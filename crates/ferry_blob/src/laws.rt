//! Laws on what blobs mean.

ghost use Rattle.std.specs.Prelude.{◌≡◌, ◌≢◌, ◌↔◌, ℕ, ◌+◌, ◌-◌, ◌^◌, ◌<◌, ◌≤◌, ◌++◌, List, None, Result, Some, length, drop, replicate, slice_index, take};
ghost use Rattle.std.specs.Int.{w64, to_be_bytes};
ghost use Rattle.ferry_base.specs.Limits.{zero_id};
ghost use Rattle.ferry_aes.specs.KeyExpansion.{key_expansion};
ghost use Rattle.ferry_aes.specs.CounterMode.{counter_block, output_blocks, xor_lists};
ghost use Rattle.ferry_mac.specs.Hmac.{hmac256};
ghost use Rattle.ferry_mac.specs.declared.keys.Keys.{Keys};
ghost use Rattle.ferry_blob.specs.Batch.{IsOpened};
ghost use Rattle.ferry_blob.specs.Blob.{IsAuthentic, IsBlockOf, IsType, OpensTo, blob_fault, block_count, blocks};
ghost use Rattle.ferry_blob.specs.Blob.{content_id, no_compression, nonce_of, plaintext, sealed};
ghost use Rattle.ferry_blob.specs.declared.fault.BlobFault.{BlobFault};
ghost use Rattle.ferry_blob.specs.declared.mode.Mode.{Mode};

/// Laws with nothing to run: a blob opens under an id to one content, or breaks one rule first.
///
/// `blob_fault` is a function, so its answers exclude each other, and one of them always holds.
pub fn blob_laws()
    // A blob opens exactly where it breaks no rule, and then to what follows the header.
    ensures opens { (keys : Keys) (id blob content : List ℕ) → OpensTo keys id blob content
        ↔ ((blob_fault keys id blob ≡ None) × (content ≡ drop 2 (plaintext keys blob))) }
    ensures one { (keys : Keys) (id blob a b : List ℕ)
        → OpensTo keys id blob a → OpensTo keys id blob b → a ≡ b }

    // What opening answers and leaves is one thing alone.
    ensures answer { (keys : Keys) (id before x y : List ℕ) (a b : Result (Unit {0}) BlobFault)
        → IsOpened keys id before a x → IsOpened keys id before b y → (a ≡ b) × (x ≡ y) }

    // With the zero id the id isn't looked at: what opens under any id opens under it, and no id is wrong.
    ensures zero { (keys : Keys) (id blob content : List ℕ)
        → OpensTo keys id blob content → OpensTo keys zero_id blob content }
    ensures unnamed { (keys : Keys) (blob : List ℕ) → blob_fault keys zero_id blob ≢ Some BlobFault.Id }

    // When each fault comes.
    ensures short { (keys : Keys) (id blob : List ℕ)
        → (blob_fault keys id blob ≡ Some BlobFault.Short) ↔ (length blob < 43) }
    ensures kind { (keys : Keys) (id blob : List ℕ)
        → (blob_fault keys id blob ≡ Some BlobFault.Kind)
        ↔ ((43 ≤ length blob) × (slice_index blob 0 ≢ 3) × (slice_index blob 0 ≢ 0)) }
    ensures mac { (keys : Keys) (id blob : List ℕ)
        → (blob_fault keys id blob ≡ Some BlobFault.Mac)
        ↔ ((43 ≤ length blob) × IsType (slice_index blob 0)
        × (take 32 (drop 1 blob) ≢ hmac256 keys.enc_hmac_key (drop 33 blob))) }
    ensures compressed { (keys : Keys) (id blob : List ℕ)
        → (blob_fault keys id blob ≡ Some BlobFault.Compressed)
        ↔ (IsAuthentic keys blob × (take 2 (plaintext keys blob) ≢ no_compression)) }
    ensures id { (keys : Keys) (id blob : List ℕ)
        → (blob_fault keys id blob ≡ Some BlobFault.Id)
        ↔ (OpensTo keys zero_id blob (drop 2 (plaintext keys blob))
        × (id ≢ zero_id) × (id ≢ content_id keys (drop 2 (plaintext keys blob)))) }
{}

/// Laws with nothing to run: which counter blocks a blob takes.
pub fn block_laws()
    // The first counter block is 8 zero bytes and the nonce.
    ensures first { (nonce : ℕ) → nonce < 2 ^ 64
        → counter_block nonce ≡ replicate 8 0 ++ to_be_bytes w64 nonce }

    // A blob is encrypted with the outputs of as many counter blocks as are counted, from its nonce on.
    ensures stream { (keys : Keys) (blob : List ℕ) → 43 ≤ length blob → plaintext keys blob
        ≡ xor_lists (drop 41 blob) (take (length blob - 41)
        (output_blocks (key_expansion keys.enc_key) (nonce_of blob) (block_count blob))) }

    // Fewer than 43 bytes have no counter block, and 43 bytes more than a content those of the content.
    ensures none { (blob : List ℕ) (number : ℕ) → length blob < 43 → IsBlockOf blob number → ⊥ }
    ensures count { (blob : List ℕ) (content : ℕ)
        → length blob ≡ 43 + content → block_count blob ≡ blocks content }
    ensures sealed { (keys : Keys) (mode : Mode) (nonce number : ℕ) (content : List ℕ) → nonce < 2 ^ 64
        → IsBlockOf (sealed keys mode nonce content) number
        ↔ ((nonce ≤ number) × (number < nonce + blocks (length content))) }
{}
