//! Laws about compound files.
ghost use Rattle.std.specs.Prelude.{◌≡◌, ◌≤◌, ℕ, List, length, Ok, Err, IsTrue, false, nat_eq};
ghost use Rattle.std.specs.List.{AllByRecursion, IsDistinct};
ghost use Rattle.carrier_model.specs.Chains.{Run, longest, after, end_word, chain_of, FreshChain, member};
ghost use Rattle.carrier_model.specs.Entries.{Entry};
ghost use Rattle.carrier_model.specs.FileTrees.{FileTree, sorted};
ghost use Rattle.carrier_model.specs.Files.{Files, open_file};
ghost use Rattle.carrier_model.specs.Layout.{layout};
ghost use Rattle.carrier_model.specs.LayoutHolds.{LayoutsAreFound, MayBeWritten};
ghost use Rattle.carrier_model.specs.Holds.{Holds, FileHolds, IsLoaded, IsStream};
ghost use Rattle.carrier_model.specs.Stores.{bare};
ghost use Rattle.carrier_model.specs.Bytes.{MOST_BYTES};
ghost use Rattle.carrier_model.specs.Loads.{Loaded, load_of, taken_by, claim_of, long_part, short_part};
ghost use Rattle.carrier_model.specs.Sectors.{is_size};
ghost use Rattle.carrier_model.specs.Trail.{Fault};
ghost use Rattle.carrier_model.specs.Links.{Directory, Link, Links, Linked, AreNew, ids, links_of, no_link};

/// What is answered of a chain is the one chain, and it is answered wherever there is one.
pub fn chains_are_exact()
    ensures sound { (T : List ℕ) (at : ℕ → ℕ) (s field bound whole need : ℕ) (earlier c : List ℕ) → chain_of T at s field bound whole need earlier ≡ Ok c → FreshChain T s bound whole need earlier c }
    ensures only { (T : List ℕ) (at : ℕ → ℕ) (s field bound whole need : ℕ) (earlier c : List ℕ) → bound ≤ end_word → FreshChain T s bound whole need earlier c → chain_of T at s field bound whole need earlier ≡ Ok c }
{}

/// The list of which a chain's fault speaks is linked by the table, of distinct members that may be taken, and no such
/// list is longer.
pub fn the_list_is_longest()
    ensures run { (T : List ℕ) (s bound whole : ℕ) (earlier : List ℕ) → let c = longest bound T s bound whole earlier in Run T s bound whole earlier c (after T s c) }
    ensures longest { (T : List ℕ) (s bound whole : ℕ) (earlier c : List ℕ) (x : ℕ) → Run T s bound whole earlier c x → length c ≤ length (longest bound T s bound whole earlier) }
{}

/// What a walk answers are the entries as they are linked, each once, and it answers wherever they are linked so.
pub fn links_are_exact()
    ensures sound { (d : Directory) (link : Link) (seen : List ℕ) (t : Links) → links_of d link seen ≡ Ok t → Linked d link.depth link.target t × AreNew seen (ids t) }
    ensures only { (d : Directory) (link : Link) (seen : List ℕ) (t : Links) → d.count ≤ no_link → Linked d link.depth link.target t → AreNew seen (ids t) → links_of d link seen ≡ Ok t }
{}

/// What is loaded of a file are its tables, of which no two have a sector in common, and it is loaded wherever there
/// are such tables.
pub fn loads_are_exact()
    ensures sound { (z : ℕ) (b : List ℕ) (s : Loaded) → load_of z b ≡ Ok s → IsLoaded z b s × IsDistinct nat_eq (taken_by s) }
    ensures only { (z : ℕ) (b : List ℕ) (s : Loaded) → IsTrue (is_size z) → length b ≤ MOST_BYTES → IsLoaded z b s → IsDistinct nat_eq (taken_by s) → load_of z b ≡ Ok s }
{}

/// What is claimed is the chain of a stream, clear of the earlier chains, and it is claimed wherever there is one.
pub fn claims_are_exact()
    ensures sound { (z : ℕ) (b : List ℕ) (s : Loaded) (e : Entry) (o : ℕ) (long short c : List ℕ) → claim_of z b s e o long short ≡ Ok c → IsStream z b s e c × AllByRecursion (λ n. member n long ≡ false) (long_part e c) × AllByRecursion (λ n. member n short ≡ false) (short_part e c) }
    ensures only { (z : ℕ) (b : List ℕ) (s : Loaded) (e : Entry) (o : ℕ) (long short c : List ℕ) → IsTrue (is_size z) → length b ≤ MOST_BYTES → IsLoaded z b s → IsStream z b s e c → AllByRecursion (λ n. member n long ≡ false) (long_part e c) → AllByRecursion (λ n. member n short ≡ false) (short_part e c) → claim_of z b s e o long short ≡ Ok c }
{}

/// What is answered of a file are the files that it holds, and they are answered wherever it holds any. So it holds no
/// others, and none where there is a fault.
pub fn files_are_exact()
    ensures sound { (b : List ℕ) (f : Files) → open_file b ≡ Ok f → FileHolds b f }
    ensures only { (b : List ℕ) (f : Files) → length b ≤ MOST_BYTES → FileHolds b f → open_file b ≡ Ok f }
    ensures one { (b : List ℕ) (f g : Files) → length b ≤ MOST_BYTES → FileHolds b f → FileHolds b g → f ≡ g }
    ensures none { (b : List ℕ) (f : Files) (g : Fault) → length b ≤ MOST_BYTES → open_file b ≡ Err g → FileHolds b f → ⊥ }
{}

/// A file holds files in sectors of either size only where its version says that size.
pub fn versions_say_sizes()
    ensures { (z : ℕ) (b : List ℕ) (f : Files) → IsTrue (is_size z) → Holds z b f → FileHolds b f }
{}

/// The file that a tree of storages and streams is written as, in either version, holds that tree with its classes, and
/// opening it answers so. Siblings stand in the order in which they are written.
pub fn layouts_are_found()
    ensures found { LayoutsAreFound }
    ensures opened { (z : ℕ) (class : List ℕ) (files : FileTree) → IsTrue (is_size z) → length class ≡ 16 → MayBeWritten files → length (layout z class files) ≤ MOST_BYTES → (f : Files) × (open_file (layout z class files) ≡ Ok f) × (f.class ≡ class) × (bare f.children ≡ sorted files) }
{}
