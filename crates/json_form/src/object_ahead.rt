//! Members of an object that are passed in an order that is known.
ghost use Rattle.std.specs.Prelude.{◌≡◌, ◌≢◌, ◌<◌, List, length, Some, None, IfSome, IfNone};
ghost use Rattle.json.specs.Token.{Token};
ghost use Rattle.json.specs.Json.{read_key};

/// Passes the name of a member, if it is this one and is next.
pub fn member_begins(tokens: &mut json::Reader<'_>, name: &str) -> Option<()>
    ensures next { IfSome result (λ _. read_key tokens.old ≡ Some (Some name.now, tokens.new)) }
    ensures other { IfNone result
        ((rest : List Token) → read_key tokens.old ≢ Some (Some name.now, rest)) }
    ensures shorter { IfSome result (λ _. length tokens.new < length tokens.old) }
{
    let found = tokens.next_key().ok()??;
    if found != name {
        return None;
    }
    Some(())
}

/// Passes the brace that ends an object, if it is next.
pub fn object_ends(tokens: &mut json::Reader<'_>) -> Option<()>
    ensures ends { IfSome result (λ _. read_key tokens.old ≡ Some (None, tokens.new)) }
    ensures other { IfNone result ((rest : List Token) → read_key tokens.old ≢ Some (None, rest)) }
    ensures shorter { IfSome result (λ _. length tokens.new < length tokens.old) }
{
    if tokens.next_key().ok()?.is_some() {
        return None;
    }
    Some(())
}
