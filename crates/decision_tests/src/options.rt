//! Options. The stored scripts cover the arguments and the environment of a child.
use filter_args::Options;
use std::test::Fail;

const WRITTEN: &str = "media=A4 nocollate duplex note='a b' media=\"it's\"";

const PRINTED: &str = "media=it\\'s collate=false duplex=true note=a\\ b";

#[test]
fn options_are_read_and_printed(rt: HostRuntime) -> Result<(), Fail> {
    let options = Options::parse(rt.alloc(), WRITTEN)?;
    assert!(rt; options.get("media") == Some("it's"));
    assert!(rt; options.get("side").is_none());
    let printed = options.print();
    drop(options);
    assert!(rt; printed?.as_str() == PRINTED);
    Ok(())
}
