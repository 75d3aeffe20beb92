//! Calls with byte offsets as data.
use hp_base::{Answer, File, Task};
use hp_client::bytes::{fallocate, free_huge_pages, ftruncate, get_huge_pages, load, store};
use hp_client::{ClientFault, CoreDriver};
use std::alloc::{AllocError, Global};

/// A call of task 1, of file 0, with a reservation where it maps.
#[derive(Clone, Copy, Debug)]
pub(crate) enum ByteCall {
    GetHugePages(u64, u64),
    FreeHugePages(u64),
    Ftruncate(u64),
    Fallocate(u32, u64, u64),
    Load(u64),
    Store(u64, u64),
}

impl ByteCall {
    /// Makes it.
    pub(crate) fn make(
        self,
        driver: &mut CoreDriver,
        alloc: Global,
    ) -> Result<Answer, ClientFault> {
        let (one, file) = (Task::new(1), File::new(0));
        match self {
            ByteCall::GetHugePages(offset, len) => {
                get_huge_pages(driver, alloc, one, file, offset, len, true)
            }
            ByteCall::FreeHugePages(address) => free_huge_pages(driver, alloc, one, address),
            ByteCall::Ftruncate(length) => ftruncate(driver, alloc, one, file, length),
            ByteCall::Fallocate(bits, offset, len) => {
                fallocate(driver, alloc, one, file, bits, offset, len)
            }
            ByteCall::Load(address) => load(driver, alloc, one, address),
            ByteCall::Store(address, word) => store(driver, alloc, one, address, word),
        }
    }

    /// Makes it, and tells what came of it.
    pub(crate) fn told(self, driver: &mut CoreDriver, alloc: Global) -> Result<String, AllocError> {
        match self.make(driver, alloc) {
            Ok(answer) => format!(in alloc; "{answer}"),
            Err(fault) => format!(in alloc; "{fault}"),
        }
    }
}
