//! Configurations read and printed, the largest among them, and faults that no worked text of the
//! definitions has.

use np_config::Config;
use np_config_read::{ConfigKind, ConfigRead, read_config};
use np_config_text::config_text;
use np_text::{Ample, JobId, NoMemory, TenantId, put_number};
use std::alloc::Global;

fn prints(alloc: Global, text: &[u8]) -> Option<Vec<u8>> {
    match read_config(alloc, text) {
        Ok(config) => config_text(alloc, &config).ok(),
        Err(_) => None,
    }
}

fn is_printed_as(alloc: Global, text: &[u8], want: &[u8]) -> bool {
    matches!(prints(alloc, text), Some(printed) if printed.as_slice() == want)
}

// The text as it is printed, with tenants and jobs of the last and of the default.
const TENANTS: &[u8] =
    b"{\"faults\":[],\"labels\":[{\"max-ready-age\":0,\"min-ready\":0,\"name\":\"a\"}],\"max-hold-age\":0,\"providers\":[{\"launch-retries\":3,\"name\":\"c\",\"pools\":[{\"fail-starts\":[],\"labels\":[{\"cores\":1,\"name\":\"a\",\"ram\":1024}],\"name\":\"m\"}]}],\"requesters\":[{\"jobs\":[{\"end\":\"used\",\"labels\":[\"a\"],\"name\":\"j\",\"priority\":\"normal\",\"relative-priority\":0,\"resources-first\":false,\"semaphores\":[],\"tenant\":\"v\"},{\"end\":\"used\",\"labels\":[\"a\"],\"name\":\"k\",\"priority\":\"normal\",\"relative-priority\":0,\"resources-first\":false,\"semaphores\":[]}],\"name\":\"z\",\"window\":20}],\"semaphores\":[],\"tenants\":[{\"max-cores\":2,\"max-ram\":3,\"max-servers\":1,\"name\":\"t\"},{\"max-cores\":0,\"name\":\"u\"},{\"name\":\"v\"}]}";

// An empty list of tenants is as none.
const PLAIN: &[u8] =
    b"{\"labels\":[{\"name\":\"a\"}],\"providers\":[{\"name\":\"c\",\"pools\":[{\"name\":\"m\",\"labels\":[{\"name\":\"a\"}]}]}],\"tenants\":[]}";

const PLAIN_PRINTED: &[u8] =
    b"{\"faults\":[],\"labels\":[{\"max-ready-age\":0,\"min-ready\":0,\"name\":\"a\"}],\"max-hold-age\":0,\"providers\":[{\"launch-retries\":3,\"name\":\"c\",\"pools\":[{\"fail-starts\":[],\"labels\":[{\"cores\":1,\"name\":\"a\",\"ram\":1024}],\"name\":\"m\"}]}],\"requesters\":[],\"semaphores\":[]}";

fn is_named(config: &Config, tenant: TenantId, name: &[u8]) -> bool {
    matches!(config
        .tenant(tenant), Some(tenant) if tenant.name.items() == name)
}

fn is_job_of(config: &Config, job: JobId, tenant: TenantId) -> bool {
    matches!(config.job(job), Some(job) if job.tenant == tenant)
}

fn has_tenants(config: &Config) -> bool {
    is_named(config, TenantId(0), b"default")
        && is_named(config, TenantId(1), b"t")
        && is_named(config, TenantId(3), b"v")
        && config.tenant(TenantId(4)).is_none()
        && is_job_of(config, JobId(0), TenantId(3))
        && is_job_of(config, JobId(1), TenantId(0))
}

fn tenants_are_read(alloc: Global) -> bool {
    match read_config(alloc, TENANTS) {
        Ok(config) => has_tenants(&config),
        Err(_) => false,
    }
}

// Rows with the numbers from `from` up to `to`, each behind `front` and before `back`.
fn put_rows(text: &mut Vec<u8>, from: u32, to: u32, front: &[u8], back: &[u8]) -> Ample {
    for i in from..to {
        if i > from {
            text.push(b',')?;
        }
        text.extend_from_slice(front)?;
        put_number(text, u64::from(i))?;
        text.extend_from_slice(back)?;
    }
    Ok(())
}

// With a number of up to three digits, the name of a row has at most 64 bytes.
const NAME: &[u8] = b"{\"name\":\"abcdefghijklmnopqrstuvwxyz-ABCDEFGHIJKLMNOPQRSTUVWXYZ.0123456";

fn put_labels(text: &mut Vec<u8>, count: u32) -> Ample {
    text.extend_from_slice(b"{\"labels\":[")?;
    put_rows(text, 0, count, NAME, b"\"}")?;
    text.extend_from_slice(b"]")?;
    Ok(())
}

fn put_tenants(text: &mut Vec<u8>, count: u32) -> Ample {
    text.extend_from_slice(b",\"tenants\":[")?;
    put_rows(text, 0, count, NAME, b"\",\"max-ram\":1000000000}")?;
    text.extend_from_slice(b"]")?;
    Ok(())
}

const FIRST_POOL: &[u8] =
    b",\"providers\":[{\"name\":\"c\",\"pools\":[{\"name\":\"m\",\"labels\":[{\"name\":\"abcdefghijklmnopqrstuvwxyz-ABCDEFGHIJKLMNOPQRSTUVWXYZ.01234560\"}],\"fail-starts\":[";

const POOL: &[u8] =
    b"\",\"pools\":[{\"name\":\"abcdefghijklmnopqrstuvwxyz-ABCDEFGHIJKLMNOPQRSTUVWXYZ.0123456789\",\"labels\":[{\"name\":\"abcdefghijklmnopqrstuvwxyz-ABCDEFGHIJKLMNOPQRSTUVWXYZ.01234560\"}]}]}";

// 64 providers of one pool each, the first of which has 4,096 starts that fail.
fn put_providers(text: &mut Vec<u8>) -> Ample {
    text.extend_from_slice(FIRST_POOL)?;
    put_rows(text, 1, 4_097, b"", b"")?;
    text.extend_from_slice(b"]}]},")?;
    put_rows(text, 1, 64, NAME, POOL)?;
    text.extend_from_slice(b"],\"semaphores\":[")?;
    put_rows(text, 0, 64, NAME, b"\"}")?;
    text.extend_from_slice(b"]")?;
    Ok(())
}

const JOB: &[u8] =
    b"\",\"labels\":[\"abcdefghijklmnopqrstuvwxyz-ABCDEFGHIJKLMNOPQRSTUVWXYZ.0123456255\"],\"tenant\":\"abcdefghijklmnopqrstuvwxyz-ABCDEFGHIJKLMNOPQRSTUVWXYZ.012345663\"}";

// 16 requesters with 256 jobs each.
fn put_requesters(text: &mut Vec<u8>) -> Ample {
    for i in 0..16_u32 {
        text.extend_from_slice(if i == 0 { b",\"requesters\":[" } else { b"," })?;
        put_rows(text, i, i + 1, NAME, b"\",\"jobs\":[")?;
        put_rows(text, 0, 256, NAME, JOB)?;
        text.extend_from_slice(b"]}")?;
    }
    Ok(())
}

const FAULT: &[u8] = b"{\"role\":\"launcher\",\"name\":\"c/m\",\"kind\":\"crash\",\"after\":";

// As many rows of each kind as there may be, and names as long as they may be.
fn put_largest(text: &mut Vec<u8>) -> Ample {
    put_labels(text, 256)?;
    put_providers(text)?;
    put_tenants(text, 64)?;
    put_requesters(text)?;
    text.extend_from_slice(b"],\"faults\":[")?;
    put_rows(text, 0, 1_024, FAULT, b"}")?;
    text.extend_from_slice(b"]}")?;
    Ok(())
}

fn is_printed_larger(alloc: Global, text: &[u8]) -> bool {
    matches!(prints(alloc, text), Some(printed) if printed.len() > text.len())
}

fn the_largest_is_printed(alloc: Global) -> bool {
    let mut text = Vec::new(alloc);
    put_largest(&mut text).is_ok() && is_printed_larger(alloc, &text)
}

#[test]
fn configurations_are_read_and_printed(rt: HostRuntime) {
    let alloc = rt.alloc();
    assert!(rt; tenants_are_read(alloc), "tenants are read");
    assert!(rt;
        is_printed_as(alloc, TENANTS, TENANTS),
        "tenants are printed"
    );
    assert!(rt; is_printed_as(alloc, PLAIN, PLAIN_PRINTED), "no tenants");
    assert!(rt; the_largest_is_printed(alloc), "the largest");
}

fn has_fault(alloc: Global, text: &[u8], kind: ConfigKind, pointer: &[u8]) -> bool {
    match read_config(alloc, text) {
        Ok(_) => false,
        Err(ConfigRead::Fault(fault)) => fault.kind == kind && fault.pointer.items() == pointer,
        Err(ConfigRead::NoMemory) => false,
    }
}

fn arrays_nest_to_127(alloc: Global) -> bool {
    matches!(vec![in alloc; b'['; 128], Ok(deep)
        if has_fault(alloc, &deep, ConfigKind::NotJson, b""))
}

fn labels_are_256(alloc: Global) -> bool {
    let mut text = Vec::new(alloc);
    put_labels(&mut text, 257).is_ok()
        && text.push(b'}').is_ok()
        && has_fault(alloc, &text, ConfigKind::TooMany, b"/labels")
}

fn tenants_are_64(alloc: Global) -> bool {
    let mut text = Vec::new(alloc);
    put_labels(&mut text, 1).is_ok()
        && put_providers(&mut text).is_ok()
        && put_tenants(&mut text, 65).is_ok()
        && text.push(b'}').is_ok()
        && has_fault(alloc, &text, ConfigKind::TooMany, b"/tenants")
}

// A name that is invalid UTF-8.
const INVALID: &[u8] = b"{\"labels\":[{\"name\":\"\xff\"}]}";

const REPEATED: &[u8] = b"{\"labels\":[{\"name\":\"a\"},{\"name\":\"a\"}]}";

#[test]
fn the_first_fault_is_told(rt: HostRuntime) {
    let alloc = rt.alloc();
    let repeated = has_fault(alloc, REPEATED, ConfigKind::Repeated, b"/labels/1/name");
    assert!(rt; repeated, "a name twice");
    assert!(rt;
        has_fault(alloc, INVALID, ConfigKind::NotJson, b""),
        "invalid UTF-8"
    );
    assert!(rt; arrays_nest_to_127(alloc), "128 levels");
    assert!(rt; labels_are_256(alloc), "257 labels");
    assert!(rt; tenants_are_64(alloc), "65 tenants");
}
