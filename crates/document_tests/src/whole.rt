//! Fronts of a document.

use crate::makers::is_told;

const WHOLE: &str =
    r#"{"clients":[{"requests":[{"calls":[[["insert","t",[1,"a"]]],[["get","t",1]],[["commit"]]]}]}],"schedule":[],"tables":[{"name":"t","columns":[["id","int"],["name","text"]]}]}"#;

#[test]
fn each_front_of_a_document_is_no_json(rt: HostRuntime) {
    for length in 0..WHOLE.len() {
        let front = WHOLE.get(..length).expect(&rt, "a front");
        is_told(&rt, rt.alloc(), front, 2, "");
    }
}
