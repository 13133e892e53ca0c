//! What a node keeps secret, by epoch: its shares and seeds, and the private halves of the dealings that it has recorded.
//!
//! A `SecretStore` is lent by whoever runs the node. `MemorySecrets` and `SureSecrets` are two in memory; the first may fail, and may be cut in a call.
//! The maps by epoch and key are those that the store of dealings keeps, too.
#![tactic(auto)]

mod held;
mod memory_secrets;
mod number_map;
mod pair_map;
mod secrets;
mod sure_secrets;

pub use memory_secrets::MemorySecrets;
pub use number_map::NumberMap;
pub use pair_map::PairMap;
pub use secrets::{SecretError, SecretOp, SecretStore};
pub use sure_secrets::SureSecrets;
