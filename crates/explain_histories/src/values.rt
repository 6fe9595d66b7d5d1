// A value, or none, as reports give it.
ghost use Rattle.std.specs.Prelude.{◌≡◌};
ghost use Rattle.serde_json.specs.View.{view};
ghost use Rattle.explain_histories.specs.Values.{value_data};

use serde_json::Value;

/// Returns a value as a number, or null for none.
pub fn value_or_null(value: Option<u64>) -> Value
    ensures { view result ≡ value_data value }
{
    match value {
        Some(value) => Value::from(value),
        None => Value::Null,
    }
}
