// The tool's refusals on real files.
use std::alloc::AllocError;
use std::fs;
use std::test::Fail;
use volume::example;
use volume_files::obey;

fn words(rt: &HostRuntime, verb: &str, file: &str, name: &str) -> Result<Vec<String>, AllocError> {
    let heap = rt.alloc();
    [verb, file, name]
        .iter()
        .filter(|word| !word.is_empty())
        .map(|word| String::from_str(heap, word))
        .try_collect(heap)
}

fn done(rt: &HostRuntime, verb: &str, file: &str, name: &str) -> Result<bool, Fail> {
    let all = words(rt, verb, file, name)?;
    Ok(obey(rt, all.as_slice())?)
}

#[test]
fn refusals(rt: HostRuntime) -> Result<(), Fail> {
    let bytes = example();
    fs::write(&rt, "whole.volume", &bytes[0..19])?;
    fs::write(&rt, "cut.volume", &bytes[0..18])?;
    assert_eq!(rt; done(&rt, "check", "whole.volume", "")?, true);
    assert_eq!(rt; done(&rt, "get", "whole.volume", "/a")?, true);
    assert_eq!(rt; done(&rt, "check", "cut.volume", "")?, false);
    assert_eq!(rt; done(&rt, "list", "cut.volume", "")?, false);
    assert_eq!(rt; done(&rt, "get", "whole.volume", "/b")?, false);
    assert_eq!(rt; done(&rt, "check", "absent.volume", "")?, false);
    assert_eq!(rt; done(&rt, "rename", "whole.volume", "")?, false);
    Ok(())
}

// Standard input is empty here, so the add is refused and the file stays.
#[test]
fn refused_add(rt: HostRuntime) -> Result<(), Fail> {
    let bytes = example();
    fs::write(&rt, "kept.volume", &bytes[0..19])?;
    assert_eq!(rt; done(&rt, "add", "kept.volume", "/b")?, false);
    let after = fs::read(&rt, "kept.volume")?;
    assert!(rt; after.as_slice() == &bytes[0..19]);
    Ok(())
}
