//! How a refused put is reported, and a refused migration.

use migration::MigrateFault;
use section_store::PutFault;
use std::test::Fail;
use store_faults::RecoverFault;

const TEXTS: [(PutFault, &str); 6] = [
    (PutFault::AlreadyStored, "P1 AlreadyStored"),
    (PutFault::TooLarge, "P2 TooLarge"),
    (PutFault::Device, "P3 Device"),
    (PutFault::Failed, "P4 Failed"),
    (PutFault::Memory, "P5 Memory"),
    (PutFault::OtherTimetable, "P6 OtherTimetable"),
];

const OF_MIGRATIONS: [(MigrateFault, &str); 5] = [
    (
        MigrateFault::Old(RecoverFault::OtherTimetable),
        "old Z2 OtherTimetable",
    ),
    (
        MigrateFault::New(RecoverFault::Damaged(2)),
        "new Z4 Damaged 2",
    ),
    (MigrateFault::OtherList, "M1 OtherList"),
    (MigrateFault::Put(PutFault::TooLarge), "P2 TooLarge"),
    (MigrateFault::Put(PutFault::Device), "P3 Device"),
];

#[test]
fn texts_of_faults_of_migrations(rt: HostRuntime) -> Result<(), Fail> {
    for (fault, wanted) in OF_MIGRATIONS {
        assert_eq!(rt; fault.to_string(rt.alloc())?.as_str(), wanted);
    }
    Ok(())
}

#[test]
fn texts_of_faults(rt: HostRuntime) -> Result<(), Fail> {
    for (fault, wanted) in TEXTS {
        assert_eq!(rt; fault.to_string(rt.alloc())?.as_str(), wanted);
    }
    Ok(())
}
