// Laws of what a file stands for.
ghost use Rattle.std.specs.Prelude.{◌≡◌, ℕ, List, IfSome, Option};
ghost use Rattle.disk_model.specs.Images.{Pending, IsImage};
ghost use Rattle.disk_model.specs.Moments.{IsImageOf};
ghost use Rattle.sample_disk.specs.Gated.{StandsFor, Keeps};

/// A file stands for one list of octets at most.
pub fn a_file_stands_for_one_list()
    ensures { (one other file : List ℕ) → StandsFor one file → StandsFor other file → one ≡ other }
{}

/// Where all is synced each image stands for what is kept.
pub fn an_image_at_rest_stands_for_what_is_kept()
    ensures { (pending : Option Pending) (octets image : List ℕ) → Keeps pending octets
        → IsImageOf pending image → StandsFor octets image }
{}
