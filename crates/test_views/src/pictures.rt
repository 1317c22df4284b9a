//! What the writers give for one trace with every kind of change and name. Expected values are from docs/FORMATS.md; what
//! Graphviz and a browser make of them, tools/check-views tries.
use std::alloc::Global;
use std::test::Fail;
use view_pictures::{write_dot, write_html, write_json, write_xml};
use view_trace::{Trace, read_trace};

const TRACE: &[u8] = b"trace states 2 loop 1
state 0
A = A$0
A.f = A$0->\"<\"->9
B = A$0
String = \"<\"
m/C =
m/C.g =
state 1
A = A$1
A.f =
B =
String = \"<\"
m/C =
m/C.g =
end
";

const JSON: &[u8] = b"{\"format\":\"trace_view\",\"version\":1,\"loop\":1,
\"atoms\":[\"A$0\",\"\\u0022\\u003c\\u0022\",\"9\",\"A$1\"],
\"relations\":[
{\"label\":\"A\",\"kind\":\"sig\",\"columns\":1,\"changes\":true},
{\"label\":\"A.f\",\"kind\":\"field\",\"columns\":3,\"changes\":true},
{\"label\":\"B\",\"kind\":\"sig\",\"columns\":1,\"changes\":true},
{\"label\":\"String\",\"kind\":\"sig\",\"columns\":1,\"changes\":false},
{\"label\":\"m/C\",\"kind\":\"sig\",\"columns\":1,\"changes\":false},
{\"label\":\"m/C.g\",\"kind\":\"field\",\"columns\":null,\"changes\":false}],
\"states\":[
{
\"A\":[[\"A$0\"]],
\"A.f\":[[\"A$0\",\"\\u0022\\u003c\\u0022\",\"9\"]],
\"B\":[[\"A$0\"]],
\"String\":[[\"\\u0022\\u003c\\u0022\"]],
\"m/C\":[],
\"m/C.g\":[]},
{
\"A\":[[\"A$1\"]],
\"A.f\":[],
\"B\":[],
\"String\":[[\"\\u0022\\u003c\\u0022\"]],
\"m/C\":[],
\"m/C.g\":[]}]}
";

const XML_BEGIN: &[u8] = b"<alloy builddate=\"\">

<instance bitwidth=\"5\" maxseq=\"0\" mintrace=\"1\" maxtrace=\"2\" command=\"\" filename=\"\" tracelength=\"2\" backloop=\"1\">

<sig label=\"seq/Int\" ID=\"0\" parentID=\"1\" builtin=\"yes\">
</sig>

<sig label=\"Int\" ID=\"1\" parentID=\"2\" builtin=\"yes\">
</sig>

<sig label=\"univ\" ID=\"2\" builtin=\"yes\">
</sig>

<sig label=\"this/A\" ID=\"4\" parentID=\"2\" var=\"yes\">
   <atom label=\"A$0\"/>
</sig>

<field label=\"f\" ID=\"5\" parentID=\"4\" var=\"yes\">
   <tuple> <atom label=\"A$0\"/> <atom label=\"&quot;&lt;&quot;\"/> <atom label=\"9\"/> </tuple>
   <types> <type ID=\"4\"/> <type ID=\"3\"/> <type ID=\"1\"/> </types>
</field>

<sig label=\"this/B\" ID=\"6\" var=\"yes\">
   <atom label=\"A$0\"/>
   <type ID=\"4\"/>
</sig>

<sig label=\"String\" ID=\"3\" parentID=\"2\" builtin=\"yes\">
   <atom label=\"&quot;&lt;&quot;\"/>
</sig>

<sig label=\"m/C\" ID=\"8\" parentID=\"2\">
</sig>

<field label=\"g\" ID=\"9\" parentID=\"8\">
   <types> <type ID=\"8\"/> <type ID=\"2\"/> </types>
</field>

</instance>
";

const DOT_END: &[u8] = b"    t1 [label=\"state 1\", shape=plain, style=\"\", fontsize=14];
    s1_0 [label=<A$0<br/><font color=\"#cf222e\"><s>- B</s></font>>];
    s1_1 [label=<&quot;&lt;&quot;>];
    s1_2 [label=<9>];
    s1_3 [label=<A$1>];
    s1_0 [color=\"#cf222e\", fontcolor=\"#cf222e\", style=\"rounded,dashed\"];
    s1_3 [color=\"#1a7f37\", penwidth=2];
    s1_0 -> s1_2 [label=\"f [&quot;&lt;&quot;]\", color=\"#cf222e\", fontcolor=\"#cf222e\", style=dashed];
  }
  t0 -> t1 [ltail=cluster_0, lhead=cluster_1, penwidth=2];
  t1 -> t1 [penwidth=2, constraint=false, label=\"loop\"];
}
";

/// The trace of these tests.
fn read(alloc: Global) -> Result<Trace<'static>, Fail> {
    Ok(read_trace(alloc, TRACE)?)
}

#[test]
fn as_json(rt: HostRuntime) -> Result<(), Fail> {
    let trace = read(rt.alloc())?;
    assert_eq!(rt; write_json(rt.alloc(), &trace)?.as_slice(), JSON);
    Ok(())
}

#[test]
fn as_xml(rt: HostRuntime) -> Result<(), Fail> {
    let trace = read(rt.alloc())?;
    let text = write_xml(rt.alloc(), &trace)?;
    assert!(rt; text.as_slice().starts_with(XML_BEGIN));
    assert!(rt; text.as_slice().ends_with(b"\n</instance>\n\n</alloy>\n"));
    Ok(())
}

#[test]
fn as_dot(rt: HostRuntime) -> Result<(), Fail> {
    let trace = read(rt.alloc())?;
    let text = write_dot(rt.alloc(), &trace)?;
    assert!(rt; text.as_slice().starts_with(b"digraph trace {\n"));
    assert!(rt; text.as_slice().ends_with(DOT_END));
    Ok(())
}

#[test]
fn as_html(rt: HostRuntime) -> Result<(), Fail> {
    let trace = read(rt.alloc())?;
    let text = write_html(rt.alloc(), &trace)?;
    assert!(rt; text.as_slice().starts_with(b"<!DOCTYPE html>\n"));
    assert!(rt; text.as_slice().ends_with(b"</script>\n</body>\n</html>\n"));
    Ok(())
}
