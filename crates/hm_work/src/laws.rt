//! What an image and its file of Intel HEX have in common. The function is a law: it does nothing, and its clauses are what is proved of the
//! definitions.

ghost use Rattle.std.specs.Prelude.{◌≡◌, List, Ok, ℕ, get_or};
ghost use Rattle.hm_base.specs.Image.{Segment, IsImage, flash_byte};
ghost use Rattle.hm_codes.specs.Listing.{Listing, IsListing};
ghost use Rattle.hm_run_laws.specs.Runs.{shown_out};
ghost use Rattle.hm_ihex.specs.Files.{hex_in};
ghost use Rattle.hm_ihex.specs.Written.{AreBytes, hex_file, joined};
ghost use Rattle.hm_sched.specs.Schedule.{Sched};
ghost use Rattle.hm_state.specs.Start.{reset_pc};

/// The image of an image's file of Intel HEX has the same listings and the same reset address, and shows the same run under each schedule: the
/// same report and the same memory. So does an image whose segments that touch were made one. Such a file begins with a colon.
pub fn same_run_law()
    ensures file { (listing : Listing) (image back : List Segment) (s : Sched) → IsImage image → AreBytes image → IsListing (flash_byte image) listing
        → hex_in (hex_file image) ≡ Ok back
        → IsListing (flash_byte back) listing × (reset_pc back ≡ reset_pc image) × (shown_out listing back s ≡ shown_out listing image s) }
    ensures joined { (listing : Listing) (image : List Segment) (s : Sched) → IsImage image → IsListing (flash_byte image) listing
        → IsListing (flash_byte (joined image)) listing × (reset_pc (joined image) ≡ reset_pc image)
        × (shown_out listing (joined image) s ≡ shown_out listing image s) }
    ensures colon { (image : List Segment) → get_or (hex_file image) 0 0 ≡ 58 }
{}
