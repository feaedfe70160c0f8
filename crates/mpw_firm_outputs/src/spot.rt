//! Which file a name leads to. `specs/Outputs.antt` has what contracts say of it.
ghost use Rattle.std.specs.Prelude.{◌≡◌, option_map, IfOk, IfErr};
ghost use Rattle.mpw_firm_outputs.specs.Outputs.{Spot, are_one, same_spot};

use std::marker::Model;

/// A file that is there, by its device and its node; or one that isn't, by its folder's and by its name there.
#[derive(Drop)]
pub struct FileSpot {
    device: u64,
    node: u64,
    name: String,
}

impl Model for FileSpot {
    ghost use Rattle.std.specs.String.{string_bytes};
    ghost use Rattle.mpw_firm_outputs.specs.Outputs.{Spot};

    ghost Value = { Spot };

    ghost view = { λ f. record { device = f.device; node = f.node; name = string_bytes f.name } };
}

impl FileSpot {
    /// The file of that name in the folder of that device and node; without a name the node's own.
    pub fn new(device: u64, node: u64, name: String) -> FileSpot {
        FileSpot { device, node, name }
    }

    /// Whether they are one file.
    fn is_same(&self, other: &FileSpot) -> bool
        ensures { result ≡ same_spot self.now other.now }
    {
        (self.device == other.device)
            & (self.node == other.node)
            & (self.name.as_bytes() == other.name.as_bytes())
    }
}

/// Whether both are there, and one file.
pub fn are_one(one: &Option<FileSpot>, other: &Option<FileSpot>) -> bool
    ensures { result ≡ are_one one.now other.now }
{
    match (one, other) {
        (Some(one), Some(other)) => one.is_same(other),
        _ => false,
    }
}
