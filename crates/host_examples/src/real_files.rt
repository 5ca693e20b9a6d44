use host_tree::{HostPath, HostTree, RealTree};
use std::alloc::Global;
use std::fs;
use std::os::unix::fs::symlink;
use std::test::Fail;

// The directory that a test works in, and one beside it.
const TREE: &str = "host_tree_test";

const BESIDE: &str = "host_tree_test_beside";

fn path_of(alloc: Global, text: &str) -> Result<HostPath, Fail> {
    Ok(HostPath::new(String::from_str(alloc, text)?))
}

// Writes a file of these bytes.
fn put(
    alloc: Global,
    tree: &mut RealTree<HostRuntime>,
    path: &str,
    bytes: &[u8],
) -> Result<(), Fail> {
    let path = path_of(alloc, path)?;
    tree.create(TREE, &path)?;
    let taken = tree.write(bytes)?;
    if taken < bytes.len() {
        return Err("not all was taken".into());
    }
    tree.close()?;
    Ok(())
}

// The first bytes of a file, up to ten.
fn got(alloc: Global, tree: &mut RealTree<HostRuntime>, path: &str) -> Result<Vec<u8>, Fail> {
    let path = path_of(alloc, path)?;
    tree.open(TREE, &path)?;
    let mut out = [0; 10];
    let count = tree.read(&mut out)?;
    let front = out[..count].to_vec(alloc)?;
    tree.close()?;
    Ok(front)
}

// The listed paths, each with a space behind it.
fn listed(alloc: Global, tree: &mut RealTree<HostRuntime>) -> Result<Vec<u8>, Fail> {
    let mut all = Vec::new(alloc);
    for path in tree.list(alloc, TREE)? {
        all.extend_from_slice(path.items())?;
        all.push(b' ')?;
    }
    Ok(all)
}

// Whether a file can't be created.
fn refused(alloc: Global, tree: &mut RealTree<HostRuntime>, path: &str) -> Result<bool, Fail> {
    let path = path_of(alloc, path)?;
    Ok(tree.create(TREE, &path).is_err())
}

// An empty directory, and a file and links beside and in it.
fn lay(rt: HostRuntime) -> Result<(), Fail> {
    let _ = fs::remove_dir_all(&rt, TREE);
    let _ = fs::remove_dir_all(&rt, BESIDE);
    fs::create_dir(&rt, BESIDE)?;
    fs::write(&rt, "host_tree_test_beside/kept", b"kept".as_slice())?;
    fs::create_dir(&rt, TREE)?;
    symlink(&rt, "../host_tree_test_beside", "host_tree_test/out")?;
    symlink(&rt, "../host_tree_test_beside/kept", "host_tree_test/link")?;
    fs::hard_link(&rt, "host_tree_test_beside/kept", "host_tree_test/twin")?;
    Ok(())
}

#[test]
fn files_are_kept_and_none_outside_is_touched(rt: HostRuntime) -> Result<(), Fail> {
    let alloc = rt.alloc();
    lay(rt)?;
    let mut tree = RealTree::new(alloc, rt);
    put(alloc, &mut tree, "b/c/d", b"deep")?;
    put(alloc, &mut tree, "b.txt", b"old bytes")?;
    put(alloc, &mut tree, "b.txt", b"new")?;
    let paths = listed(alloc, &mut tree)?;
    assert_eq!(rt; paths.as_slice(), b"b.txt b/c/d twin ".as_slice());
    let bytes = got(alloc, &mut tree, "b.txt")?;
    assert_eq!(rt; bytes.as_slice(), b"new".as_slice());
    for path in [
        "out/new", "out", "link", "twin", "../x", "/x", "b//x", "./x", "", "link/x", "b",
    ] {
        let is_refused = refused(alloc, &mut tree, path)?;
        assert!(rt; is_refused, "{path}");
    }
    let kept = fs::read(&rt, "host_tree_test_beside/kept")?;
    assert_eq!(rt; kept.as_slice(), b"kept".as_slice());
    Ok(())
}
