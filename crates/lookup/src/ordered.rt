// What a lookup in a selected-inverse result finds: the value at a pair's place, or why there is none.
ghost use Rattle.std.specs.Prelude.{◌≡◌, length};
ghost use Rattle.result.specs.Lookup.{value_at};
ghost use Rattle.lookup.specs.Reply.{Placed};
ghost use Rattle.refusal.specs.Refusal.{reply_of};

use refusal::Refusal;

// What it finds, and how many places it looked at.
#[derive(Clone, Copy)]
pub struct CountedEntry {
    pub entry: Result<f64, Refusal>,
    pub looks: usize,
}

// The value at a place of the values, of floats or of whole numbers.
pub fn value_at<T: Copy>(values: &[T], place: Result<usize, Refusal>) -> Result<T, Refusal>
    requires { Placed (reply_of place) (length values.now) }
    ensures { (blank : T) → reply_of result ≡ value_at blank values.now (reply_of place) }
{
    let p = place?;
    Ok(values[p])
}
