// The fields of a case, each found by its label, which starts with the line end before it. A field that the case lacks is read as 0, or as an empty list.
ghost use Rattle.std.specs.Prelude.{◌≡◌};
ghost use Rattle.case_text.specs.Items.{placed, Listing};
ghost use Rattle.case_text.specs.Fields.{field_at, number_field};

use super::items::{Form, read_list};
use super::{decimal, skip_blanks, skip_to};

// The number after the label.
pub fn number_field(text: &[u8], label: &[u8]) -> usize
    ensures { result ≡ number_field text.now label.now }
{
    decimal(text, skip_blanks(text, skip_to(text, 0, label))) as usize
}

// The list after the label, put to the front of the lent list; the reply is how many items.
pub fn list_field<F: Form>(text: &[u8], label: &[u8], list: &mut [F::Item]) -> usize
    ensures { Listing (placed F.here) text.now (field_at text.now label.now) list.old result list.new }
{
    read_list::<F>(text, skip_to(text, 0, label), list)
}
