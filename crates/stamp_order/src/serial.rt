//! Whether operations are serial.
ghost use Rattle.std.specs.Prelude.{◌↔◌, IsTrue, IfOk};
ghost use Rattle.stamp_order.specs.Serial.{IsSerial};

use crate::plain_map::PlainMap;
use base_words::Memory;
use record_text::Operation;
use std::alloc::Global;

/// Whether each get has the value of the last put to its key before it, or none where there is none.
pub fn is_serial(alloc: Global, operations: &[Operation]) -> Result<bool, Memory>
    ensures serial { IfOk result (λ answer. IsTrue answer ↔ IsSerial operations.now) }
{
    let mut map = PlainMap::new(alloc);
    for operation in operations {
        if operation.put {
            map.put(operation.key, operation.value.copy())?;
        } else if !map.get(operation.key).is_same(&operation.value) {
            return Ok(false);
        }
    }
    Ok(true)
}
