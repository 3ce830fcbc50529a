// Laws of addresses.
ghost use Rattle.std.specs.Prelude.{◌≡◌, ◌↔◌, ℕ, List, Some};
ghost use Rattle.std.specs.declared.net.ipv4_addr.Ipv4Addr.{Ipv4Addr};
ghost use Rattle.std.specs.declared.net.ipv6_addr.Ipv6Addr.{Ipv6Addr};
ghost use Rattle.std.specs.declared.net.ip_addr.IpAddr.TheVariants as Ip;
ghost use Rattle.std.specs.Net.Grammar.{IsIpv4Text, IsIpv6Text};
ghost use Rattle.text_words.specs.Addresses.{ipv4_of, ipv6_of};

/// The addresses that are read are those of std's grammar: four decimal numbers with dots, or the text of RFC 4291, 2.2.
pub fn addresses_are_texts()
    ensures ipv4 { (text : List ℕ) (a : Ipv4Addr) → (ipv4_of text ≡ Some (Ip.V4 a))
        ↔ IsIpv4Text text a }
    ensures ipv6 { (text : List ℕ) (a : Ipv6Addr) → (ipv6_of text ≡ Some (Ip.V6 a))
        ↔ IsIpv6Text text a }
{}
