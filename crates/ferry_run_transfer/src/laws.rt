//! Laws of a transfer that is run again, each the contract of a function with nothing to do.
ghost use Rattle.std.specs.Prelude.{◌≡◌, ◌≢◌, ◌↔◌, ◌∷◌, ◌*◌, List, [], length, map, ℕ, Option, Some};
ghost use Rattle.std.specs.List.{AllByRecursion};
ghost use Rattle.ferry_base.specs.Limits.{zero_id};
ghost use Rattle.ferry_blob.specs.Blob.{OpensTo, content_id};
ghost use Rattle.ferry_piece.specs.Gather.{IsAmong, NoCollision};
ghost use Rattle.ferry_piece.specs.Puts.{Addition, contents_in};
ghost use Rattle.ferry_carry.specs.Listing.{ListsNames};
ghost use Rattle.ferry_carry.specs.Naming.{DrawsSalts, TaggedRecord, records_in, salts_of};
ghost use Rattle.ferry_carry.specs.Refusals.{HasLargeRecord, HasLongItem};
ghost use Rattle.ferry_check.specs.Verify.{FilesVerify};
ghost use Rattle.ferry_disk.specs.Act.{History, files_now};
ghost use Rattle.ferry_disk.specs.Files.{Files, file_at};
ghost use Rattle.ferry_disk.specs.Image.{ImageOf};
ghost use Rattle.ferry_nonce.specs.Counter.{KeepsNumbers};
ghost use Rattle.ferry_disk.specs.declared.name.Name.TheVariants.{Nonce};
ghost use Rattle.ferry_repo.specs.Objects.{HasBlob};
ghost use Rattle.ferry_repo.specs.Opening.{OpensFilesTo, RepoState};
ghost use Rattle.ferry_repo.specs.Whole.{HasWhole, WholeArchive};
ghost use Rattle.ferry_stops.specs.Counters.{SpellsNumber};
ghost use Rattle.ferry_store.specs.New.{OpensNew};
ghost use Rattle.ferry_run_transfer.specs.Rerun.{AreLeftInTurn, EachChosen, IsNamedOrChosen, KeepsNonce, LacksName, MeetsConditions};
ghost use Rattle.ferry_store.specs.State.{HasNumber};
ghost use Rattle.ferry_carry.specs.States.{Drawn};
ghost use Rattle.ferry_run_transfer.specs.Transfer.{HasTransferred, KeepsArchives, NoneCollide, Request, chosen_of, from_source};
ghost use Rattle.ferry_run_transfer.specs.TransferCauses.{HasLargeTarget, IsOfAdded, IsReadyFor};

/// What a transfer asks of its target, it finds again in what it left at a stop, with the same words and the same source: the files open, the file
/// `nonce` has a number, and each chosen name is absent there or equal.
pub fn transfer_laws()
    // This needs that no contents collide among those that were added and those that were live at the start.
    ensures rerun { (request : Request) (start image : Files) (before : RepoState) (lines : List (List ℕ))
        → OpensFilesTo start request.secrets.target before → (keeps : KeepsArchives request start before.manifest lines image)
        → NoneCollide request start keeps.begun → KeepsNonce start image
        → MeetsConditions request start → MeetsConditions request image }
    // What a run keeps of the number that it began with, each stop shows, chance or none.
    ensures nonce { (moment : History) (image : Files) → KeepsNumbers moment → ImageOf moment image → KeepsNonce moment.start image }
    // The same over any number of stops, each of a run over what the one before left.
    ensures runs { (request : Request) (start : Files) (images : List Files) → AreLeftInTurn request start images → MeetsConditions request start
        → AllByRecursion (MeetsConditions request) images }
    // Where the source opens, the names with the chosen ones are those of the start with the chosen ones.
    ensures names { (request : Request) (start image : Files) (before from : RepoState) (source : Files) (lines : List (List ℕ))
        → request.source ≡ Some source → OpensFilesTo source request.secrets.source from
        → (keeps : KeepsArchives request start before.manifest lines image) (name : List ℕ)
        → IsNamedOrChosen request from.manifest keeps.repo.manifest name ↔ IsNamedOrChosen request from.manifest before.manifest name }
    // The same of all that a transfer asks so that it is done, whatever each of both runs drew, where each chunk opens that was live at the start and whose id
    // is that of a content that the next run adds to what is left.
    ensures ready { (request : Request) (drawn next : Drawn) (source start image : Files) (lines : List (List ℕ)) → request.source ≡ Some source
        → (ready : IsReadyFor request drawn source start) → (keeps : KeepsArchives request start ready.repo.manifest lines image)
        → NoneCollide request start keeps.begun → KeepsNonce start image
        → ((id blob : List ℕ) → id ≢ zero_id → IsOfAdded request next source image id → HasBlob start ready.repo.log id blob
        → (content : List ℕ) × OpensTo ready.repo.keys id blob content) → IsReadyFor request next source image }
    // Where the source tells its files, what is left verifies where the start did.
    ensures verifies { (request : Request) (source start image : Files) (before : RepoState) (lines : List (List ℕ)) → request.source ≡ Some source
        → OpensFilesTo start request.secrets.target before → FilesVerify start request.secrets.target
        → (keeps : KeepsArchives request start before.manifest lines image)
        → NoneCollide request start keeps.begun → FilesVerify image request.secrets.target }
    // A target that opens, with a number in the file `nonce`, and lacks each chosen name meets the conditions.
    ensures first { (request : Request) (start : Files) (repo : RepoState) → OpensFilesTo start request.secrets.target repo → HasNumber start
        → EachChosen request request.source (λ source name. LacksName repo.manifest name) → MeetsConditions request start }
    // A new repository is ready for archives that are whole in the source.
    ensures fresh { (request : Request) (drawn : Drawn) (source start : Files) (from : RepoState) → OpensFilesTo source request.secrets.source from
        → ((name : List ℕ) → IsAmong (chosen_of request.names from.manifest) name
        → (whole : WholeArchive) × HasWhole source request.secrets.source name whole)
        → OpensNew request.secrets.target start → (text : List ℕ) (number : ℕ) → file_at start Nonce ≡ Some text → SpellsNumber text number
        → IsReadyFor request drawn source start }
    // Over a new repository no contents collide where none of those that are added do.
    ensures apart { (request : Request) (start : Files) (new : OpensNew request.secrets.target start) (added : List Addition)
        → NoCollision new.repo.keys (contents_in added) → NoneCollide request start added }
    // One content alone asks that its id isn't the manifest's.
    ensures one { (request : Request) (start : Files) (new : OpensNew request.secrets.target start) (added : Addition)
        → content_id new.repo.keys added.content ≢ zero_id → NoneCollide request start (added ∷ []) }
    // Among what is added for names the records are these, one for each archive that is new.
    ensures records { (request : Request) (files : Files) (source target : RepoState) (names : List (List ℕ))
        (records : List TaggedRecord) (added : List Addition)
        → ListsNames (from_source request files source) target.keys target.manifest [] names records added
        → records_in added ≡ map (λ (one : TaggedRecord). one.text) records }
    // Where a transfer is done, no chosen archive that the target lacked had a record that is too large.
    ensures small { (request : Request) (source : Files) (from : RepoState) (drawn drawn_now : Option (List ℕ)) (before now : History) (name : List ℕ)
        → request.source ≡ Some source → OpensFilesTo source request.secrets.source from
        → (did : HasTransferred request drawn drawn_now before now) → IsAmong (chosen_of request.names from.manifest) name
        → LacksName did.repo.manifest name → HasLargeRecord source (from_source request source from) did.repo.keys name → ⊥ }
    // Nor had one an item that is too long, since none that came is in more pieces than an item may have.
    ensures long { (request : Request) (source : Files) (from : RepoState) (drawn drawn_now : Option (List ℕ)) (before now : History) (name : List ℕ)
        → request.source ≡ Some source → OpensFilesTo source request.secrets.source from
        → (did : HasTransferred request drawn drawn_now before now) → IsAmong (chosen_of request.names from.manifest) name
        → LacksName did.repo.manifest name → HasLongItem source (from_source request source from) name → ⊥ }
    // And behind no front of the chosen names the manifest was too large with the next, whatever lines tell the front.
    ensures limited { (request : Request) (source : Files) (drawn drawn_now : Option (List ℕ)) (before now : History) (lines : List (List ℕ))
        → request.source ≡ Some source → HasTransferred request drawn drawn_now before now
        → HasLargeTarget request source (files_now before) lines → ⊥ }
    // For each 128 bytes are drawn.
    ensures salts { (records : List TaggedRecord) (before now : Option (List ℕ)) → DrawsSalts records before now
        → length (salts_of records) ≡ 128 * length records }
{}
