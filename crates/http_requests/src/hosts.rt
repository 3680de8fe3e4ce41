//! Names of this machine.
ghost use Rattle.std.specs.List.{list_all, list_any};
ghost use Rattle.std.specs.Prelude.{◌≡◌, map};
ghost use Rattle.http_requests.specs.HttpRoutes.{is_digit, is_host, is_loopback, is_own_host, is_port};

/// Returns whether a `Host` is a name of this machine, with or without a port: that of its loopback, or one of these names.
pub fn is_own_host(names: &[Vec<u8>], host: &[u8]) -> bool
    ensures { result ≡ is_own_host (map (λ name. name.items) names.now) host.now }
{
    is_loopback(host) || is_named(names, host)
}

fn is_named(names: &[Vec<u8>], host: &[u8]) -> bool
    ensures { result ≡ list_any (is_host host.now) (map (λ name. name.items) names.now) }
{
    for name in names {
        if is_host(host, name.as_slice()) {
            return true;
        }
    }
    false
}

fn is_loopback(host: &[u8]) -> bool
    ensures { result ≡ is_loopback host.now }
{
    is_host(host, b"localhost") || is_host(host, b"127.0.0.1") || is_host(host, b"[::1]")
}

fn is_host(host: &[u8], name: &[u8]) -> bool
    ensures { result ≡ is_host host.now name.now }
{
    match host.split_at_checked(name.len()) {
        Some((first, rest)) => first.eq_ignore_ascii_case(name) && is_port(rest),
        None => false,
    }
}

fn is_port(text: &[u8]) -> bool
    ensures { result ≡ is_port text.now }
{
    match text {
        [] => true,
        [colon, digits @ ..] => *colon == b':' && are_digits(digits),
    }
}

fn are_digits(text: &[u8]) -> bool
    ensures { result ≡ list_all is_digit text.now }
{
    text.iter().all(|b| is_digit(*b))
}

fn is_digit(b: u8) -> bool
    ensures { result ≡ is_digit b }
{
    b'0' <= b && b <= b'9'
}
