// The numbers of a buffer's credentials.
ghost use Rattle.std.specs.Prelude.{◌≡◌, ◌≤◌, Option};
ghost use Rattle.isp1_auth.specs.Numbers.{next_number};
ghost use Rattle.isp1_auth.specs.declared.random_numbers.TheConstants.{GREATEST_NUMBER};
ghost use Rattle.frame_select.specs.Item.{items_of};
ghost use Rattle.return_pdu.specs.declared.return_kind.ReturnKind.{ReturnKind};
ghost use Rattle.buffer_message.specs.Signing.{Signing, number_after};
ghost use Rattle.buffer_message.specs.Content.{contents};

use frame_select::Item;
use isp1_auth::RandomNumbers;

/// The number after another.
pub(crate) fn next_number(number: u32) -> u32
    requires { number ≤ GREATEST_NUMBER }
    ensures exact { result ≡ next_number number }
    ensures small { result ≤ GREATEST_NUMBER }
{
    RandomNumbers::new(number, 0).next_number()
}

/// Draws a number for each of the items, and answers the first item's.
pub(crate) fn draw(items: &[Item], numbers: &mut RandomNumbers) -> u32
    ensures drawn { numbers.new ≡ number_after numbers.old (items_of items.now) }
    ensures first { (service : ReturnKind) (by : Option Signing)
        → contents service by result (items_of items.now)
        ≡ contents service by (next_number numbers.old) (items_of items.now) }
    ensures small { result ≤ GREATEST_NUMBER }
{
    let [_, others @ ..] = items else {
        return 0;
    };
    let first = numbers.next_number();
    for _ in others {
        let _ = numbers.next_number();
    }
    first
}
