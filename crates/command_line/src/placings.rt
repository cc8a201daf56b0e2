ghost use Rattle.std.specs.Prelude.{◌≡◌};
ghost use Rattle.command_line.specs.PlacingNames.{placing_named};
ghost use Rattle.command_line.specs.StrictNames.{strict_named};

use run_types::Placing;

/// The time at which outputs get what is written, by the name that `--atomic` gives it: for all at the end, or stored as well.
pub fn placing_named(name: &str) -> Option<Placing>
    ensures { result ≡ placing_named name.now }
{
    if name == "renamed" {
        Some(Placing::AtEnd)
    } else if name == "synced" {
        Some(Placing::AtEndStored)
    } else {
        None
    }
}

/// Whether a run is strict, by the name that `--strict` gives it.
pub fn strict_named(name: &str) -> Option<bool>
    ensures { result ≡ strict_named name.now }
{
    if name == "always" {
        Some(true)
    } else if name == "never" {
        Some(false)
    } else {
        None
    }
}
