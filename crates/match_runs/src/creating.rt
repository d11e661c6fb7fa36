ghost use Rattle.std.specs.Prelude.{◌≡◌, ◌⊎◌};
ghost use Rattle.streamed.specs.declared.ending.Ending.TheVariants.{OutOfMemory, Store, StoreExists};
ghost use Rattle.promise_store.specs.declared.fault.StoreFault.TheVariants.{Disk};

use promise_store::StoreFault;
use std::io;
use streamed::Ending;

/// The ending where a store file can't be made: 103 where it is there already, 92 where memory was refused, else 63.
pub fn unmade(error: &io::Error) -> Ending
    ensures { (result ≡ StoreExists) ⊎ ((result ≡ OutOfMemory) ⊎ (result ≡ Store Disk)) }
{
    match error.kind() {
        io::ErrorKind::AlreadyExists => Ending::StoreExists,
        io::ErrorKind::OutOfMemory => Ending::OutOfMemory,
        _ => Ending::Store(StoreFault::Disk),
    }
}
