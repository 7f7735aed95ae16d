// Texts of certificates that are written as they are read.
use cert_model::{read_certificate, write_certificate};
use crpd_base::Certificate;
use std::alloc::Global;

// The second text has cache sets at the ends of words of bits, and numbers at the ends of their
// ranges.
static WRITTEN: [&str; 2] = [
    "{\"platform\":{\"data\":3,\"div\":0,\"hit\":1,\"line\":16,\"miss\":10,\"mul\":0,\"sets\":4,\
     \"switch\":5,\"switching\":\"cycle\",\"taken\":2},\"tasks\":[{\"bound\":12,\"evicting\":[0],\
     \"loops\":[],\"method\":\"ucb\",\"name\":\"one\",\"potentials\":[12,1],\"response\":17,\
     \"states\":[[0,[],[]]],\"useful\":[0],\"window\":17}],\"version\":2}",
    "{\"platform\":{\"data\":3,\"div\":0,\"hit\":1,\"line\":16,\"miss\":10,\"mul\":0,\"sets\":4,\
     \"switch\":5,\"switching\":\"instruction\",\"taken\":2},\"tasks\":[{\"bound\":12,\
     \"evicting\":[1,127,128,510],\"loops\":[0,1099511627776],\"method\":\"ecb\",\"name\":\"one\",\
     \"potentials\":[12,1],\"response\":17,\"states\":[[0,[0,256,511,4294967295],[0,63,64,511]],\
     [16383,[],[]]],\"useful\":[0],\"window\":17}],\"version\":2}",
];

// Whether a certificate is written as this text.
fn is_written(alloc: Global, certificate: &Certificate, text: &str) -> bool {
    match write_certificate(alloc, certificate) {
        Ok(bytes) => bytes.as_slice() == text.as_bytes(),
        Err(_) => false,
    }
}

// Whether a text is read, and written again unchanged.
fn is_kept(alloc: Global, text: &str) -> bool {
    match read_certificate(alloc, text.as_bytes()) {
        Ok(certificate) => is_written(alloc, &certificate, text),
        Err(_) => false,
    }
}

#[test]
fn written_texts(rt: HostRuntime) {
    for &text in &WRITTEN {
        assert!(rt; is_kept(rt.alloc(), text));
    }
}
