// The law of the module that is written for a fabric.
ghost use Rattle.ice_image.specs.Configuration.{Configuration};
ghost use Rattle.chipdb_reader.specs.Database.{Database};
ghost use Rattle.fabric_model.specs.declared.options.FabricOptions.{FabricOptions};
ghost use Rattle.fabric_module.specs.Law.{ModuleIsFabric};

/// The written module runs as the fabric, for every database and image that aren't refused, with each choice of options. The call does
/// nothing: its clause is the law.
pub fn module_is_fabric()
    ensures { (options : FabricOptions) (db : Database) (image : Configuration) → ModuleIsFabric options db image }
{}
