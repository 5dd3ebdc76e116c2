//! How values are printed.
use period_core::KeyType;
use register_core::{Name, Purpose};
use std::alloc::{AllocError, Global};

fn is_type_printed(alloc: Global) -> Result<bool, AllocError> {
    let text = format!(in alloc; "{}", KeyType::KeyWrapping)?;
    Ok(text.as_str() == "key-wrapping")
}

fn is_name_printed(alloc: Global) -> Result<bool, AllocError> {
    let Some(name) = Name::new(b"ops-1@hsm.example") else {
        return Ok(false);
    };
    let text = format!(in alloc; "{name:?}")?;
    Ok(text.as_str() == "\"ops-1@hsm.example\"")
}

fn is_purpose_printed(alloc: Global) -> Result<bool, AllocError> {
    let Some(purpose) = Purpose::new("backups of Zürich".as_bytes()) else {
        return Ok(false);
    };
    let text = format!(in alloc; "{purpose:?}")?;
    Ok(text.as_str() == "\"backups of Zürich\"")
}

#[test]
fn values_are_printed(rt: HostRuntime) -> Result<(), AllocError> {
    assert!(rt; is_type_printed(rt.alloc())?);
    assert!(rt; is_name_printed(rt.alloc())?);
    assert!(rt; is_purpose_printed(rt.alloc())?);
    Ok(())
}
