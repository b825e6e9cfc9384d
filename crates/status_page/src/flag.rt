// A bit as a number.
ghost use Rattle.std.specs.Prelude.{◌≡◌};
ghost use Rattle.status_page.specs.Numbers.{flag};

// 1 if it holds, else 0.
pub(crate) fn flag(holds: bool) -> u64
    ensures { result ≡ flag holds }
{
    if holds { 1 } else { 0 }
}
