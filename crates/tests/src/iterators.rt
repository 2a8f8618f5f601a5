use dns_names::Name;
use std::test::Fail;

#[test]
fn remaining_labels_are_hinted(rt: HostRuntime) -> Result<(), Fail> {
    let name = Name::from_ascii(rt.alloc(), "a.b.c.")?;
    assert_eq!(rt; name.iter().size_hint(), (3, Some(3)));
    Ok(())
}

/// Adds a label of one letter, or that there is none.
fn push_label(text: &mut String, label: Option<&[u8]>) -> Result<(), Fail> {
    match label {
        Some([letter]) => text.push(*letter as char)?,
        Some(_) => text.push_str("more")?,
        None => text.push_str("no")?,
    }
    Ok(text.push(' ')?)
}

#[test]
fn labels_come_from_either_end(rt: HostRuntime) -> Result<(), Fail> {
    let name = Name::from_ascii(rt.alloc(), "a.b.c.")?;
    let mut labels = name.iter();
    let mut found = String::new(rt.alloc());
    push_label(&mut found, labels.next())?;
    push_label(&mut found, labels.next_back())?;
    push_label(&mut found, labels.next())?;
    push_label(&mut found, labels.next_back())?;
    assert_eq!(rt; found.as_str(), "a c b no ");
    Ok(())
}
