//! Certificates worked by hand, and certificates that fail or do not read, through the top call.
use std::alloc::Global;
use std::test::Fail;
use test_runs::{CHANGE, CHANGE_PLAN, answers, is_output, output_of, refuses};

const CERTIFY: &str = "certify --cut c --delays d --from A --to T --at 2024-06-03T08:00:00";

const CERTIFY_THERE: &str = "certify --cut c --delays d --from A --to A --at 2024-06-03T08:00:00";

const CHECK: &str = "check --cut c --delays d --from A --to T --at 2024-06-03T08:00:00 --proof p";

const CHECK_THERE: &str =
    "check --cut c --delays d --from A --to A --at 2024-06-03T08:00:00 --proof p";

const CHECK_TO_B: &str =
    "check --cut c --delays d --from A --to B --at 2024-06-03T08:00:00 --proof p";

const CHECK_GRAPH: &str =
    "check --cut c --delays d --from A --to T --at 2024-06-03T08:00:00 --graph g";

/// The plan of `CHANGE` without its last row.
const UNSAFE_GRAPH: &str =
    "graph,1,A,T,2024-06-03T08:00:00,2024-06-03T10:42:00,2024-06-03T08:54:42.000000000,2024-06-03T08:54:42.000000000\nstart,2024-06-03T08:00:00,r1,1,2024-06-03T08:00:00,1,B,2024-06-03T08:20:00\nplace,B,120,1,,,,\nleg,2024-06-03T08:22:00,r2,1,2024-06-03T08:24:00,1,T,2024-06-03T08:50:00\n";

/// Fails unless a check of this certificate has this status, answer and line.
fn checks(
    alloc: Global,
    proof: &str,
    line: &str,
    status: u8,
    out: &str,
    err: &str,
) -> Result<(), Fail> {
    let [cut, delays] = CHANGE;
    let sources = [cut, delays, ("p", proof)];
    let output = output_of(alloc, sources.as_slice(), line)?;
    is_output(alloc, proof, &output, status, out, err)
}

/// Fails unless a check of this graph has this status, answer and line.
fn checks_graph(alloc: Global, graph: &str, status: u8, out: &str, err: &str) -> Result<(), Fail> {
    let [cut, delays] = CHANGE;
    let sources = [cut, delays, ("g", graph)];
    let output = output_of(alloc, sources.as_slice(), CHECK_GRAPH)?;
    is_output(alloc, graph, &output, status, out, err)
}

/// The certificate of the journey of `CHANGE`, by its value of r3.
fn certificate(alloc: Global, third: &str) -> Result<String, Fail> {
    Ok(format!(in alloc;
        "bounds,1,A,T,2024-06-03T08:00:00,2024-06-03T10:42:00,3\nvalue,r1,1,2024-06-03T08:54:42.000000000\nvalue,r2,1,2024-06-03T08:51:30.000000000\nvalue,r3,1,2024-06-03T{third}\n"
    )?)
}

#[test]
fn certifies_a_journey(rt: HostRuntime) -> Result<(), Fail> {
    let wanted = certificate(rt.alloc(), "09:07:30.000000000")?;
    answers(rt.alloc(), CHANGE.as_slice(), CERTIFY, wanted.as_str())
}

#[test]
fn certifies_that_one_is_there(rt: HostRuntime) -> Result<(), Fail> {
    let made = output_of(rt.alloc(), CHANGE.as_slice(), CERTIFY_THERE)?;
    assert_eq!(rt; made.status, 0);
    checks(
        rt.alloc(),
        made.out.as_str(),
        CHECK_THERE,
        0,
        "holds,A,A,2024-06-03T08:00:00,2024-06-03T08:00:00,2024-06-03T08:00:00.000000000\n",
        "",
    )
}

/// Fails unless a check of the certificate with this value of r3 has this status, answer and line.
fn checks_third(alloc: Global, third: &str, status: u8, out: &str, err: &str) -> Result<(), Fail> {
    let proof = certificate(alloc, third)?;
    checks(alloc, proof.as_str(), CHECK, status, out, err)
}

#[test]
fn checks_certificates(rt: HostRuntime) -> Result<(), Fail> {
    let holds = "holds,A,T,2024-06-03T08:00:00,2024-06-03T10:42:00,2024-06-03T08:54:42.000000000\n";
    for (third, status, out, err) in [
        ("09:07:30.000000000", 0, holds, ""),
        (
            "09:07:30.000000001",
            13,
            "",
            "meat: proof fails at r3 step 1\n",
        ),
        (
            "09:07:29.999999999",
            13,
            "",
            "meat: proof fails at r1 step 1\n",
        ),
    ] {
        checks_third(rt.alloc(), third, status, out, err)?;
    }
    Ok(())
}

#[test]
fn refuses_certificate_files(rt: HostRuntime) -> Result<(), Fail> {
    for (proof, status, err) in [
        (
            "bounds,1,A,T,2024-06-03T08:00:00,2024-06-03T10:42:00\n",
            14,
            "meat: proof file line 1: bad row\n",
        ),
        (
            "bounds,1,A,T,2024-06-03T08:00:00,2024-06-03T10:42:00,0\n\n",
            13,
            "meat: proof fails at r3 step 1\n",
        ),
        (
            "bounds,1,A,T,2024-06-03T08:00:00,2024-06-03T10:42:00,1\n\n",
            14,
            "meat: proof file line 2: bad row\n",
        ),
        (
            "bounds,1,A,T,2024-06-03T08:00:00,2024-06-03T10:42:00,1\nvalue,r9,1,2024-06-03T08:51:30.000000000\n",
            14,
            "meat: proof file line 2: unknown name\n",
        ),
        (
            "bounds,1,A,T,2024-06-03T08:00:00,2024-06-03T10:42:00,1\nvalue,r2,2,2024-06-03T08:51:30.000000000\n",
            14,
            "meat: proof file line 2: does not agree\n",
        ),
    ] {
        checks(rt.alloc(), proof, CHECK, status, "", err)?;
    }
    Ok(())
}

#[test]
fn reports_that_a_certificate_is_missing(rt: HostRuntime) -> Result<(), Fail> {
    refuses(
        rt.alloc(),
        CHANGE.as_slice(),
        CHECK,
        14,
        "meat: proof file is missing\n",
    )
}

#[test]
fn refuses_a_certificate_of_another_query(rt: HostRuntime) -> Result<(), Fail> {
    let whole = certificate(rt.alloc(), "09:07:30.000000000")?;
    checks(
        rt.alloc(),
        whole.as_str(),
        CHECK_TO_B,
        14,
        "",
        "meat: proof file line 1: other query\n",
    )
}

#[test]
fn reports_the_bounds_of_a_graph(rt: HostRuntime) -> Result<(), Fail> {
    checks_graph(
        rt.alloc(),
        CHANGE_PLAN,
        0,
        "encloses,A,T,2024-06-03T08:00:00,2024-06-03T10:42:00,2024-06-03T08:54:42.000000000,2024-06-03T08:54:42.000000000\n",
        "",
    )
}

#[test]
fn reports_where_a_graph_is_not_safe(rt: HostRuntime) -> Result<(), Fail> {
    checks_graph(
        rt.alloc(),
        UNSAFE_GRAPH,
        15,
        "",
        "meat: unsafe at B at 2024-06-03T08:25:00\n",
    )
}
