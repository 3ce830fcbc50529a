use byte_text::OutOfMemory;
use conf_block::{http_in, listens_of, next_named};
use conf_text::parse;
use site_model::Listens;
use std::alloc::Global;
use std::process::Abort;
use std::test::Fail;

/// The addresses of the first server of a configuration.
fn listened(alloc: Global, text: &[u8]) -> Result<Listens, OutOfMemory> {
    let Ok(directives) = parse(alloc, 0, text) else {
        return Err(OutOfMemory);
    };
    match next_named(http_in(directives.as_slice()), b"server") {
        None => Err(OutOfMemory),
        Some(server) => listens_of(alloc, server.block),
    }
}

/// The first server of each configuration listens on these ports.
fn all_listen(rt: &impl Abort, alloc: Global, cases: &[(&[u8], &[u16])]) -> Result<(), Fail> {
    for (text, ports) in cases {
        let listens = listened(alloc, *text)?;
        assert_eq!(rt; listens.as_slice().len(), ports.len());
        for (addr, port) in listens.as_slice().iter().zip(*ports) {
            assert_eq!(rt; addr.port, *port);
        }
    }
    Ok(())
}

#[test]
fn a_server_has_its_addresses(rt: HostRuntime) -> Result<(), Fail> {
    all_listen(
        &rt,
        rt.alloc(),
        &[
            (b"a; http { b { listen 1; } server { c; } }", &[80]),
            (
                b"http { server { listen 81; types { listen 7; } listen [::1]:82; } server { listen 83; } }",
                &[81, 82],
            ),
            (b"http { server { location / { listen 84; } } }", &[80]),
        ],
    )
}
