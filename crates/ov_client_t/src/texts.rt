//! The texts of faults.
use ov_client::ClientFault;
use ov_owner::OwnerFault;
use std::test::Fail;

#[test]
fn faults_have_texts(rt: HostRuntime) -> Result<(), Fail> {
    let text = format!(in rt.alloc(); "{}", OwnerFault::BadReply { at: 7 })?;
    assert_eq!(rt; text.as_str(), "the reply is no answer (byte 7)");
    let text = format!(in rt.alloc(); "{}", OwnerFault::Unsettled { epochs: [0; 9] })?;
    assert_eq!(rt; text.as_str(), "others made updates at each try");
    let text = format!(in rt.alloc(); "{}", ClientFault::BadReply { at: 13 })?;
    assert_eq!(rt; text.as_str(), "a reply is no answer (byte 13)");
    Ok(())
}
