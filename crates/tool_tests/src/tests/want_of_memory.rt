//! What a call ends in where memory is refused: the exit status 3, whatever asked for it.

use dbf_image::ImageFault;
use folders::LoadFault;
use key_expr::ExprFault;
use ndx_index::NdxFault;
use program_frame::{Reason, Report};
use std::process::Abort;
use std::test::*;
use table_text::TextFault;
use tool_program::{
    CheckFault, OrderFault, ShowFault, ToolFault, ToolReport, not_checked, not_shown,
};

const FAULTS: [ShowFault; 8] = [
    ShowFault::Load(LoadFault::NoMemory),
    ShowFault::Memos(LoadFault::NoMemory),
    ShowFault::Table(ImageFault::NoMemory),
    ShowFault::Order(OrderFault::Load(LoadFault::NoMemory)),
    ShowFault::Order(OrderFault::Index(NdxFault::NoMemory)),
    ShowFault::Order(OrderFault::Expression(ExprFault::NoMemory)),
    ShowFault::Order(OrderFault::NoMemory),
    ShowFault::Text(TextFault::NoMemory),
];

// The exit status of a call that ends so.
fn status_of(ended: Result<ToolReport, ToolFault<'_>>) -> u8 {
    match ended {
        Ok(report) => report.exit_status(),
        Err(fault) => fault.exit_status(),
    }
}

// The first fault that has another status than 3.
fn first_other(faults: &[ShowFault]) -> Option<usize> {
    for i in 0..faults.len() {
        if status_of(not_shown(faults[i], false, "T.DBF")) != 3 {
            return Some(i);
        }
    }
    None
}

#[test]
fn want_of_memory_has_its_status(rt: HostRuntime) -> Result<(), Fail> {
    let check = status_of(not_checked(CheckFault::NoMemory, false, "OFFICE.SET"));
    assert_eq!(rt; (first_other(&FAULTS), check), (None, 3));
    Ok(())
}
