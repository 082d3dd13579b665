//! What `keyed` prints, and what it reports if there is no tree.

use crate::support::{expect_done, expect_fault, put};

// An archive of a list of one name. Python's `plistlib` made it, and also `CYCLE`.
const LIST: &[u8] = b"\
    bplist00\xd2\x01\x02\x03\x0bX$objectsT$top\xa3\x04\x05\x0aU$null\xd2\x06\x07\x08\x09\
    TnameTnext\x80\x02\x80\0Qx\xd2\x0c\x0d\x0e\x0aTrootTtext\x80\x01\x08\x0d\x16\x1b\x1f\
    %*/468:?DI\0\0\0\0\0\0\x01\x01\0\0\0\0\0\0\0\x0f\0\0\0\0\0\0\0\0\0\0\0\0\0\0\0K";

// An archive of an array that contains itself.
const CYCLE: &[u8] = b"\
    bplist00\xd2\x01\x02\x03\x07X$objectsT$top\xa2\x04\x05U$null\xa1\x06\x80\x01\xd1\x08\
    \x09Troot\x80\x01\x08\x0d\x16\x1b\x1e$&(+0\0\0\0\0\0\0\x01\x01\0\0\0\0\0\0\0\x0a\0\0\
    \0\0\0\0\0\0\0\0\0\0\0\0\x002";

const LINES: &[u8] = b"StartDictionary 2\nString \"name\"\nString \"x\"\nString \"next\"\n\
    String \"$null\"\nEndCollection\n";

#[test]
fn prints_a_tree(rt: HostRuntime) {
    put(&rt, "keyed", LIST);
    expect_done(&rt, "keyed @keyed root", LINES);
    expect_fault(&rt, "keyed @keyed none", b"Error: NoSuchTop\n");
    expect_fault(&rt, "keyed @keyed text", b"Error: NoSuchTop\n");
}

#[test]
fn tells_why_there_is_no_tree(rt: HostRuntime) {
    put(&rt, "cycle", CYCLE);
    expect_fault(&rt, "keyed @cycle root", b"Error: RecursiveUid(1)\n");
    put(&rt, "no_archive", b"{ root = 1 }");
    expect_fault(&rt, "keyed @no_archive root", b"Error: NotAnArchive\n");
    expect_fault(&rt, "keyed @no_folder/in root", b"Error: Io\n");
}
