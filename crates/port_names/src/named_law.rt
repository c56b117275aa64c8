// The law of the module whose ports have the names of a pin file.
ghost use Rattle.std.specs.Prelude.{List};
ghost use Rattle.ice_image.specs.Configuration.{Configuration};
ghost use Rattle.chipdb_reader.specs.Database.{Database};
ghost use Rattle.fabric_model.specs.declared.options.FabricOptions.{FabricOptions};
ghost use Rattle.pin_file.specs.declared.pin_name.PinName.{PinName};
ghost use Rattle.port_names.specs.NamedLaw.{NamedIsFabric};

/// The module with the names of a pin file runs as the fabric, for every database and image that aren't refused and every pin file without
/// a fault, with each choice of options. The call does nothing: its clause is the law. No code of this project calls it: it is for users of
/// the library.
pub fn named_module_is_fabric()
    ensures { (named : List PinName) (options : FabricOptions) (db : Database) (image : Configuration) → NamedIsFabric named options db image }
{}
