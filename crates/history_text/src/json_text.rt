// From the bytes of a text to its JSON value.
ghost use Rattle.std.specs.Prelude.{IfOk, IfErr};
ghost use Rattle.serde_json.specs.View.{view};
ghost use Rattle.history_text.specs.Texts.{IsJson};
ghost use Rattle.history_text.specs.JsonFaults.{IsJsonFault};

use crate::MAX_TEXT;
use crate::json_fault::JsonFault;
use serde_json::Value;
use std::alloc::Global;

/// Returns the JSON value of a text of at most `MAX_TEXT` bytes. Otherwise it returns why there is
/// none. It tests the length first.
pub fn json_of(alloc: Global, text: &[u8]) -> Result<Value, JsonFault>
    ensures ok { IfOk result (λ value. IsJson text.now (view value)) }
    ensures refused { IfErr result (IsJsonFault text.now) }
{
    if text.len() > MAX_TEXT {
        return Err(JsonFault::TooLong);
    }
    match Value::from_slice(alloc, text) {
        Ok(value) => Ok(value),
        Err(error) if error.is_memory() => Err(JsonFault::Memory),
        Err(_) => Err(JsonFault::NotJson),
    }
}
