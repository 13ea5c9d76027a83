//! A text grows, where there is memory enough. What it then has is in its contract.
use xet_base::Text;

#[test]
fn a_text_grows(rt: HostRuntime) {
    let mut text = Text::from_string(String::new(rt.alloc()));
    assert!(rt; text.push('ñ').is_ok() && text.push_str("b c").is_ok());
}
