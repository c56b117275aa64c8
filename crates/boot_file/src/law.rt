// The law of boot files that were joined.
ghost use Rattle.std.specs.Prelude.{◌≡◌, ◌<◌, ◌≤◌, ℕ, List};
ghost use Rattle.ice_image.specs.Configuration.{Configuration};
ghost use Rattle.boot_file.specs.declared.options.Options.{Options};
ghost use Rattle.boot_file.specs.Joined.{AreInOrder, JoinedMeans, own_entries};

/// A file that was joined means the images that were joined, if their order is that of the entries. With the entries 0, 1, 2, 3 it is. The
/// call does nothing: its clauses are the law. No code of this project calls it: it is for users of the library.
pub fn joined_file_means_its_images()
    ensures means { (images : List (List ℕ)) (options : Options) (spelled : List Configuration) → JoinedMeans images options spelled }
    ensures own { (count : ℕ) (options : Options) → 0 < count → count ≤ 4 → options.entries ≡ own_entries → AreInOrder count options }
{}
