// "Function results .. In this order, first failure decides": what a request that was read comes to, on the grounds that
// may decide it (`model::Grounds`): the present change count, whether the request's phy exists, whether the source
// reaches it, and whether the source is group 1.

#![tactic(auto)]

ghost use Rattle.std.specs.Prelude.{◌≡◌, Ok, Err};
ghost use Rattle.model.specs.Results.{count_right, check_phy, check_read, check_write};
ghost use Rattle.model.specs.Results.{check_kind, check_operation, check_descriptors, check_management};

use model::{Failure, FunctionResult, Grounds};
use writes::descriptors::first_unsupported;
use writes::operation::PhyOperation;

// Not 04h: "91h and 93h, when bytes 4 and 5 are neither 0000h nor the present count"
#[tactic(auto, unfolding(model::specs::Results::count_right))]
fn count_right(on: Grounds, expected: u32) -> bool
    ensures { result ≡ count_right on expected }
{
    expected == 0x0000 || expected == u32::from(on.changes)
}

// "10h PHY DOES NOT EXIST", then "Not reached", with its result
fn check_phy(on: Grounds, unreached: Failure) -> FunctionResult
    ensures { result ≡ check_phy on (Err unreached) (Ok tt) }
{
    if !on.there {
        return Err(Failure::PhyDoesNotExist);
    }
    if !on.reached {
        return Err(unreached);
    }
    Ok(())
}

// "16h PHY VACANT for 11h and 14h"
pub fn check_read(on: Grounds) -> FunctionResult
    ensures { result ≡ check_read on }
{
    check_phy(on, Failure::PhyVacant)
}

// A write up to its contents: 04h, 10h, and "20h SMP ZONE VIOLATION for 91h and 93h". (`expected` stays beside the grounds, which are the
// shelf's and the source's: it is the frame's.)
fn check_write(on: Grounds, expected: u32) -> FunctionResult
    ensures { result ≡ check_write on expected (Ok tt) }
{
    if !count_right(on, expected) {
        return Err(Failure::InvalidExpanderChangeCount);
    }
    check_phy(on, Failure::SmpZoneViolation)
}

// "02h SMP FUNCTION FAILED for a broadcast type above 0Fh (06h)"
pub fn check_kind(kind: u8) -> FunctionResult
    ensures { result ≡ check_kind kind }
{
    if 0x0F < kind {
        return Err(Failure::SmpFunctionFailed);
    }
    Ok(())
}

// #101, 21h: "only source group 1 may ask": "result 21h NO MANAGEMENT ACCESS RIGHTS for other sources comes directly after
// 03h"
pub fn check_management(on: Grounds) -> FunctionResult
    ensures { result ≡ check_management on }
{
    if !on.management {
        return Err(Failure::NoManagementAccessRights);
    }
    Ok(())
}

// The contents of a 91h: "13h UNKNOWN PHY OPERATION (91h, any operation not named below)"
fn check_operation(operation: u8) -> FunctionResult
    ensures { result ≡ check_operation operation }
{
    PhyOperation::try_from(operation)?;
    Ok(())
}

// The contents of a 93h: "02h SMP FUNCTION FAILED for .. more than four descriptors (93h); then 17h
// UNKNOWN PHY EVENT SOURCE (93h)"
fn check_descriptors(frame: &[u8], d: u8) -> FunctionResult
    ensures { result ≡ check_descriptors frame.now d }
{
    if 4 < d {
        return Err(Failure::SmpFunctionFailed);
    }
    if first_unsupported(frame, d).is_some() {
        return Err(Failure::UnknownPhyEventSource);
    }
    Ok(())
}

// A 91h. Its contents are judged only where all before has passed.
pub fn check_control(on: Grounds, expected: u32, operation: u8) -> FunctionResult
    ensures { result ≡ check_write on expected (check_operation operation) }
{
    check_write(on, expected)?;
    check_operation(operation)
}

// A 93h with d descriptors. They are judged only where all before has passed.
pub fn check_configure(on: Grounds, expected: u32, frame: &[u8], d: u8) -> FunctionResult
    ensures { result ≡ check_write on expected (check_descriptors frame.now d) }
{
    check_write(on, expected)?; // before any source: a stranger would learn from the code what he may not touch
    check_descriptors(frame, d)
}
