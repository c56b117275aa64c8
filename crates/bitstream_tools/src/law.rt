// The law of the images that are stored.
ghost use Rattle.std.specs.Prelude.{◌<◌, ◌≤◌, List, length};
ghost use Rattle.clap.specs.Words.{Text};
ghost use Rattle.boot_file.specs.declared.options.Options.{Options};
ghost use Rattle.boot_file.specs.Joined.{AreInOrder};
ghost use Rattle.bitstream_tools.specs.Stored.{names_once, stock_options};

/// With the options of `icemulti --as-stock` the order of the stored images is that of the entries, so that a boot file of bitstreams means
/// these images, by the law of the crate `boot_file`. The call does nothing: its clause is the law. No code of this project calls it: it is
/// for users of the library.
pub fn stored_images_are_in_order()
    ensures { (names : List Text) (options : Options) → length names ≤ 4 → options.power_on < length names
        → AreInOrder (length (names_once names)) (stock_options names options) }
{}
