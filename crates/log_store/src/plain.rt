ghost use Rattle.std.specs.Prelude.{◌≡◌, ◌==◌, ℕ};
ghost use Rattle.log_record.specs.Durable.{durable_in};
ghost use Rattle.log_store.specs.Kept.{IsSure as IsSureOf, told};

use crate::store::PlainStore;
use disk_model::Disk;
use host_ids::{Batch, NoMemory};
use log_record::{Durables, StoreFault};
use std::alloc::Global;

impl Durables for PlainStore {
    ghost file_of = { λ s. s.file.file };

    ghost kept = { λ s. s.kept };

    ghost reached = { λ s. s.file.reached };

    ghost owns = { λ file f. f == file };

    ghost opens = { λ file c. told file (durable_in file (c file)) };

    ghost is_sure = { λ d s. IsSureOf d s };

    fn open<D: Disk>(alloc: Global, disk: &mut D, file: u64) -> Result<PlainStore, StoreFault> {
        PlainStore::open(alloc, disk, file)
    }

    fn follows(&self, batch: &Batch) -> bool {
        PlainStore::follows(self, batch)
    }

    fn save<D: Disk>(&mut self, disk: &mut D, batch: &Batch) -> Result<(), StoreFault> {
        PlainStore::save(self, disk, batch)
    }

    fn durable(&self) -> Result<Batch, NoMemory> {
        PlainStore::durable(self)
    }
}
